//! The words of the program.
ghost use Rattle.std.specs.Prelude.{◌≡◌, ◌↔◌, ◌⊎◌, ◌^◌, ◌<◌, ℕ, IfSome, IfNone, IsTrue, map, string_bytes};
ghost use Rattle.journal_text.specs.declared.settings.Settings.{Settings};
ghost use Rattle.registrar_tool.specs.declared.words.Command.{Command};
ghost use Rattle.registrar_tool.specs.Words.{IsNumber, AreSettings, IsDecide, IsInit, IsCommand};

use arrayvec::ArrayVec;
use join_history::POOL_END;
use journal_text::Settings;

/// What the words ask for.
#[derive(Debug, Drop)]
pub(crate) enum Command {
    /// `init`: an empty journal.
    Init,
    /// `decide`: decisions under these settings.
    Decide(Settings),
}

/// The most digits of a number among the words.
const MOST_DIGITS: usize = 20;

fn read_number(word: &str) -> Option<u16>
    ensures found { IfSome result (IsNumber word.now) }
    ensures none { IfNone result ((number : ℕ) → number < 2 ^ 16 → IsNumber word.now number → ⊥) }
{
    let digits = word.as_bytes();
    if digits.is_empty() || digits.len() > MOST_DIGITS || digits[0] == b'+' {
        return None;
    }
    word.parse::<u16>().ok()
}

/// The settings that three words give, where each is a number in its range.
fn read_settings(first: &str, count: &str, hours: &str) -> Option<Settings>
    ensures found { IfSome result (AreSettings first.now count.now hours.now) }
    ensures none { IfNone result ((settings : Settings) → AreSettings first.now count.now hours.now settings → ⊥) }
{
    let Some(first) = read_number(first) else {
        return None;
    };
    let Some(count) = read_number(count) else {
        return None;
    };
    let Some(hours) = read_number(hours) else {
        return None;
    };
    if first == 0 || count == 0 || hours == 0 || u32::from(first) + u32::from(count) > POOL_END {
        return None;
    }
    Some(Settings {
        first,
        count,
        hours,
        rate: None,
        jrc: None,
        refused: ArrayVec::new(),
    })
}

/// The settings that the words `decide first count hours` give; `None` for all other words.
fn read_decide(words: &[String]) -> Option<Settings>
    ensures found { IfSome result (λ settings. IsDecide (map string_bytes words.now) settings) }
    ensures none { IfNone result ((settings : Settings) → IsDecide (map string_bytes words.now) settings → ⊥) }
{
    let [command, first, count, hours] = words else {
        return None;
    };
    if command.as_str() != "decide" {
        return None;
    }
    read_settings(first.as_str(), count.as_str(), hours.as_str())
}

/// Whether there is the one word `init`.
fn is_init(words: &[String]) -> bool
    ensures { IsTrue result ↔ IsInit (map string_bytes words.now) }
{
    let [command] = words else {
        return false;
    };
    command.as_str() == "init"
}

/// What the words ask for: `init`, or `decide first count hours`; `None` for all other words.
pub(crate) fn read_words(words: &[String]) -> Option<Command>
    ensures found { IfSome result (IsCommand (map string_bytes words.now)) }
    ensures none { IfNone result ((command : Command) → IsCommand (map string_bytes words.now) command → ⊥) }
{
    if is_init(words) {
        return Some(Command::Init);
    }
    read_decide(words).map(Command::Decide)
}

/// Whether the words are a command of `run`: a program that has files to open asks this first.
pub fn is_command(words: &[String]) -> bool
    ensures { IsTrue result ↔ (IsInit (map string_bytes words.now) ⊎ ((settings : Settings) × IsDecide (map string_bytes words.now) settings)) }
{
    if is_init(words) {
        return true;
    }
    match read_decide(words) {
        Some(_) => true,
        None => false,
    }
}
