//! Updates and answers to them, on which two independent implementations agree.

/// A pledge, an update to it, and its answer without a number of its own, where there is one. Messages are in hexadecimal
/// digits; no answer is an empty text.
pub struct Exchange {
    pub psk: [u8; 16],
    pub id: [u8; 8],
    pub update: &'static str,
    pub answer: &'static str,
}

pub static FIRST: [Exchange; 16] = [
    Exchange {
        psk: *b"\x8f\xa7\x75\x67\xc5\x96\xf8\xd5\x58\xb1\x8f\x2a\xbe\xe3\x6a\x4b",
        id: *b"\xe0\x46\x56\xc7\xe6\xe2\x05\xae",
        update: "480293d700683500000000019509014a5243ff3a9a9380eb52999d7e94112df8da52f318cc39b5d64e89de97f36f2a36bc1adaa0",
        answer: "",
    },
    Exchange {
        psk: *b"\x8f\xa7\x75\x67\xc5\x96\xf8\xd5\x58\xb1\x8f\x2a\xbe\xe3\x6a\x4b",
        id: *b"\xe0\x46\x56\xc7\xe6\xe2\x05\xae",
        update: "4802ebbd001e030000ffffff970bffffff4a5243ffe694b6e5760d33f2622e43f1bbf2068e329ae2c16110dae0a26da3dbb8ee176760",
        answer: "",
    },
    Exchange {
        psk: *b"\xd6\x18\x2c\x8c\x34\xc3\xaa\xe1\x63\x13\x75\x1e\x86\xbb\xed\xc1",
        id: *b"\xea\x54\xc5\x19\xeb\xe4\x5e\x3d",
        update: "4802b177005abe0000010000970b0100004a5243ff524c890570d103191965b6de12a1ca582fd229328bc1c1af5d01bd564149be9e89",
        answer: "",
    },
    Exchange {
        psk: *b"\xd6\x18\x2c\x8c\x34\xc3\xaa\xe1\x63\x13\x75\x1e\x86\xbb\xed\xc1",
        id: *b"\xea\x54\xc5\x19\xeb\xe4\x5e\x3d",
        update: "48028a1400552b8000000000990d80000000004a5243ffe569f652b3bbe0e8353b81bb28a5e8b107cad52b3f7e06839f496a1e46e1b63457",
        answer: "",
    },
    Exchange {
        psk: *b"\x28\x22\x93\xc6\x23\xd1\x42\xa5\x29\x0b\xac\xa6\xad\x3c\x08\xba",
        id: *b"\x44\x51\x34\xdc\x2b\xdc\x0f\x58",
        update: "48023aec00467c0000ffffff970bffffff4a5243fff9bd40b5f6f5cfd4a8df99591628c1437a4d2b8465c2a2d0ced379d7ca63c621e0",
        answer: "",
    },
    Exchange {
        psk: *b"\x28\x22\x93\xc6\x23\xd1\x42\xa5\x29\x0b\xac\xa6\xad\x3c\x08\xba",
        id: *b"\x44\x51\x34\xdc\x2b\xdc\x0f\x58",
        update: "4802852000690affffffffff990dffffffffff4a5243ffc5ff40ced662b83f91ec259fe6dd952c9850e51bc06aa1b0448619a1d4d4c5f337",
        answer: "",
    },
    Exchange {
        psk: *b"\xd6\x5f\x59\x06\x22\x67\x06\x51\x05\x54\x35\x4a\xbb\x3c\x8e\xee",
        id: *b"\xfa\x57\xab\x32\xc4\x5d\x6f\xe2",
        update: "480211ce0049b10000ffffff970bffffff4a5243ff9b161c6251a9534424a5d5474ee216f0b417ee416f2b50443332decc326a6a4a21",
        answer: "",
    },
    Exchange {
        psk: *b"\xd6\x5f\x59\x06\x22\x67\x06\x51\x05\x54\x35\x4a\xbb\x3c\x8e\xee",
        id: *b"\xfa\x57\xab\x32\xc4\x5d\x6f\xe2",
        update: "480220710029a1ffffffffff990dffffffffff4a5243ffa8f425ef6203b135700fb6ec73bca096850a9ce2fb4f84000a4e8491df54e469e8",
        answer: "",
    },
    Exchange {
        psk: *b"\xd5\x78\x8c\x9d\xae\x33\xa1\xb7\x8d\x5d\xeb\xdd\xbb\xde\xf8\xc5",
        id: *b"\x90\x1f\x05\x3e\x22\x6a\xa8\xe0",
        update: "480274e2005c3a0100000000990d01000000004a5243fffbe5e8dc87f68be32fcc0ea85bbb5b2015161b6d0e94386cf1518d6220567cd1e9",
        answer: "",
    },
    Exchange {
        psk: *b"\xd5\x78\x8c\x9d\xae\x33\xa1\xb7\x8d\x5d\xeb\xdd\xbb\xde\xf8\xc5",
        id: *b"\x90\x1f\x05\x3e\x22\x6a\xa8\xe0",
        update: "48023acb0027b200000000809509804a5243ff12479883c005793d557e5333e3de9390ec4acb2b3ed660f884370bfbdc14adf5bb",
        answer: "",
    },
    Exchange {
        psk: *b"\xd9\x6d\x95\xc4\x6d\xfc\x1e\x0e\x69\x3f\x13\xe9\xab\x6b\xed\x5b",
        id: *b"\x6e\x4a\x75\x7c\x62\xc7\xa8\x6d",
        update: "480204220028ba00000000019509014a5243ff17c42ba40c3cdd3a5b44040db0b013798d62abd5cc62e8d21b49a8d0e5ac5af824",
        answer: "",
    },
    Exchange {
        psk: *b"\xd9\x6d\x95\xc4\x6d\xfc\x1e\x0e\x69\x3f\x13\xe9\xab\x6b\xed\x5b",
        id: *b"\x6e\x4a\x75\x7c\x62\xc7\xa8\x6d",
        update: "480240dd0030f100000000ff9509ff4a5243ff7e874d1e62ab9feab55d4d1a3aafba5add7ae27d09c72a44d6d7c0af75445a4666",
        answer: "",
    },
    Exchange {
        psk: *b"\xed\x4e\xfe\xf3\x76\x99\xf9\xd5\x2d\x93\x68\x5a\xfa\x22\x7a\xac",
        id: *b"\x5c\xca\xfe\x8b\x36\xf2\x84\x27",
        update: "4802e27d00428600000000ff9509ff4a5243ff60ccc14e03c5ba6e824cc18ac448109969f4b88935383adaeeaa819fd604bd796c",
        answer: "",
    },
    Exchange {
        psk: *b"\xed\x4e\xfe\xf3\x76\x99\xf9\xd5\x2d\x93\x68\x5a\xfa\x22\x7a\xac",
        id: *b"\x5c\xca\xfe\x8b\x36\xf2\x84\x27",
        update: "48020432004e8900000000019509014a5243ff13e4400e4b0e2a556b0ec5642922940aded4862d1a3fae38cfcbc3923cc1940be0",
        answer: "",
    },
    Exchange {
        psk: *b"\xe1\xca\x92\x3a\x01\x4b\xe8\x8f\x32\xde\xb4\xd5\x8e\x94\xd4\x38",
        id: *b"\xb3\x13\x65\x1f\x7e\xd1\x5a\x2f",
        update: "4802da640041bd0000010000970b0100004a5243fffe10adff7f60bd6e865d25cb1c2f3254bf5f1a486ae3a977f07eac04ce3b4ddeb2",
        answer: "",
    },
    Exchange {
        psk: *b"\xe1\xca\x92\x3a\x01\x4b\xe8\x8f\x32\xde\xb4\xd5\x8e\x94\xd4\x38",
        id: *b"\xb3\x13\x65\x1f\x7e\xd1\x5a\x2f",
        update: "48025e1900445e0001000000980c010000004a5243ffeebdd2cf3d76d0f2f9cc685db2d21ede5c9abdca05380119ef2e4285126aa49289",
        answer: "",
    },
];

pub static SECOND: [Exchange; 16] = [
    Exchange {
        psk: *b"\x3d\xe6\xaa\x96\x92\x62\xd7\x91\xa5\xce\x72\xd4\xbb\x29\x46\x83",
        id: *b"\x7b\xbf\xc2\xca\x16\xc4\xdd\x0e",
        update: "48024294005df20100000000990d01000000004a5243ffdb1da787e57e1626a8883cf9c814441d2b0f73da4b45292a1daf6dabe959a934f4",
        answer: "68444294005df2010000000090ffbc740569cfb2fbc52b",
    },
    Exchange {
        psk: *b"\x3d\xe6\xaa\x96\x92\x62\xd7\x91\xa5\xce\x72\xd4\xbb\x29\x46\x83",
        id: *b"\x7b\xbf\xc2\xca\x16\xc4\xdd\x0e",
        update: "48022060002eb7000000007f95097f4a5243ffd951b1b992764bd3eb11181bf4a346dd28798ec36554e80872995f0a5ae7872dc2",
        answer: "",
    },
    Exchange {
        psk: *b"\x7e\x4e\x4c\x60\x2b\x7b\x4b\x36\x91\xce\x44\x3a\x1f\x04\xc3\x76",
        id: *b"\x83\x1a\x51\xea\x47\x17\x97\x67",
        update: "48029a6d0007c50000ffffff970bffffff4a5243ff2632268758eccb2636c6488b0c1d2403a2e7c46f8d33c07718e307afe65dc6edb8",
        answer: "68449a6d0007c50000ffffff90ff24a4f043ab845b551d",
    },
    Exchange {
        psk: *b"\x7e\x4e\x4c\x60\x2b\x7b\x4b\x36\x91\xce\x44\x3a\x1f\x04\xc3\x76",
        id: *b"\x83\x1a\x51\xea\x47\x17\x97\x67",
        update: "4802ced400721affffffffff990dffffffffff4a5243ffbfd26dfabb82310266d390403d5760229a81a202927aac3f2b09181f4889ec960c",
        answer: "",
    },
    Exchange {
        psk: *b"\xd9\xe9\x5e\x29\x7e\x4c\xb5\x4d\xe8\xfb\x03\x66\x9f\x76\xfe\x48",
        id: *b"\x41\xde\x19\x8d\x34\x67\xbe\x74",
        update: "48026ad9000ccc0100000000990d01000000004a5243ffbaa3bd83f435d7ea6c4d80ebf1a22bd00798585c1171d6e6b1e4ed13fb790d447a",
        answer: "",
    },
    Exchange {
        psk: *b"\xd9\xe9\x5e\x29\x7e\x4c\xb5\x4d\xe8\xfb\x03\x66\x9f\x76\xfe\x48",
        id: *b"\x41\xde\x19\x8d\x34\x67\xbe\x74",
        update: "48022813007d370000000100960a01004a5243ffbc9683b794488626c52f2fc4a7fa002cbf5e677f797a18a0c8bba1c3dfb34c76ee",
        answer: "",
    },
    Exchange {
        psk: *b"\x44\x4f\x18\xc2\xe0\x20\xf2\xfb\x81\x5d\x62\x82\x3c\x47\xae\x58",
        id: *b"\x5b\x54\xe3\x2c\xbf\x92\x29\x3b",
        update: "48024c1c003da00000000100960a01004a5243ff44ddb739c4069327dc2934e28fea207485d9a97f5b456f85f668100f4b412dd073",
        answer: "",
    },
    Exchange {
        psk: *b"\x44\x4f\x18\xc2\xe0\x20\xf2\xfb\x81\x5d\x62\x82\x3c\x47\xae\x58",
        id: *b"\x5b\x54\xe3\x2c\xbf\x92\x29\x3b",
        update: "480249040048f500000000809509804a5243ffa67288fa00657b88d712facccd248410e8cc8c77ac86c2f1a5f041ee98aca9b7ee",
        answer: "",
    },
    Exchange {
        psk: *b"\x7c\x3d\x73\xa0\x1a\x8f\x9a\xb8\xee\x55\x29\x22\x32\xa0\x07\x3f",
        id: *b"\xcf\x7a\xfc\x57\x00\x2a\x74\x50",
        update: "480255d2001a75000000007f95097f4a5243ff565b7c4b53ae9c265802650410f0c221260df1fd70dfa8922dd7fd551e1b9474dd",
        answer: "",
    },
    Exchange {
        psk: *b"\x7c\x3d\x73\xa0\x1a\x8f\x9a\xb8\xee\x55\x29\x22\x32\xa0\x07\x3f",
        id: *b"\xcf\x7a\xfc\x57\x00\x2a\x74\x50",
        update: "4802ca110048fa8000000000990d80000000004a5243ff8d6f4b1c039437cc75159fdb5e6565282bb35db8e7391d969337f7b7b6ccf07e2e",
        answer: "6844ca110048fa800000000090ff4e7e0a2567122259c7",
    },
    Exchange {
        psk: *b"\x2e\x74\xf9\xcd\x60\xf1\xdf\x76\xef\x0b\xf6\x79\x45\x19\x7c\xa7",
        id: *b"\xfe\x61\xad\x5d\x18\x2e\xd3\xe6",
        update: "480279eb004de900000000009509004a5243ff78a02e6a2ccc3af85cd73f0743f3c5c64690262239f7f8358acad3cb2b1b440c54",
        answer: "",
    },
    Exchange {
        psk: *b"\x2e\x74\xf9\xcd\x60\xf1\xdf\x76\xef\x0b\xf6\x79\x45\x19\x7c\xa7",
        id: *b"\xfe\x61\xad\x5d\x18\x2e\xd3\xe6",
        update: "480247510059af8000000000990d80000000004a5243ff806578809497201e78350a97131c3184315f533819cb785dff7dd66f3dce082caa",
        answer: "",
    },
    Exchange {
        psk: *b"\x6a\x32\x68\xb1\xce\xcd\x1e\x4c\x00\x2c\x4e\xeb\x0c\x66\x90\x0a",
        id: *b"\xd4\x2f\x69\x5a\x96\x82\x56\x08",
        update: "48023358003675000000ffff960affff4a5243ffd7606800771112f08eec9e98f59d32c29c9958a65236ed00c9c4224ba3937f7982",
        answer: "",
    },
    Exchange {
        psk: *b"\x6a\x32\x68\xb1\xce\xcd\x1e\x4c\x00\x2c\x4e\xeb\x0c\x66\x90\x0a",
        id: *b"\xd4\x2f\x69\x5a\x96\x82\x56\x08",
        update: "480248db0065be000000007f95097f4a5243ff9aeda219ec4226f201ab92da792c110d63f4af3e8d3e35da7f0558dd09828f2c5c",
        answer: "",
    },
    Exchange {
        psk: *b"\xd8\xba\x9a\x03\xe3\xd6\xff\xec\x97\xb0\xce\xf0\xc1\x50\x90\x78",
        id: *b"\x56\xa2\xa0\xc8\x6a\xd2\x55\x3c",
        update: "48028bff00194400ffffffff980cffffffff4a5243ffa6ecd2cbf97f950c38b0c1d8d93b7b83e560df96552262a41de61731fb70e63942",
        answer: "",
    },
    Exchange {
        psk: *b"\xd8\xba\x9a\x03\xe3\xd6\xff\xec\x97\xb0\xce\xf0\xc1\x50\x90\x78",
        id: *b"\x56\xa2\xa0\xc8\x6a\xd2\x55\x3c",
        update: "4802060000021500000000809509804a5243ff954b96edc33cdf565e8c3597743b323d4a09bfdec7d396d0f686835b0902d0e896",
        answer: "",
    },
];
