//! Lists of words with what they ask for, made by hand from the rule. A bar stands between two words.
use crate::equal::equal;
use ht_rate::Rate;
use ht_words::Asked;
use std::alloc::{AllocError, Global};
use std::process::Abort;
use std::test::Fail;

// Words, workers and window.
static FOR_WORKERS: [(&str, u8, u16); 22] = [
    ("", 4, 256),
    ("|--workers|1", 1, 256),
    ("|--workers|2", 2, 256),
    ("|--workers|63", 63, 256),
    ("|--workers|64", 64, 256),
    ("|--workers|4", 4, 256),
    ("|--workers|04", 4, 256),
    ("|--workers|00000000000000000001", 1, 256),
    ("|--workers|00000000000000000064", 64, 256),
    ("|--window|1", 4, 1),
    ("|--window|2", 4, 2),
    ("|--window|007", 4, 7),
    ("|--window|0256", 4, 256),
    ("|--window|4095", 4, 4095),
    ("|--window|4096", 4, 4096),
    ("|--window|00000000000000004096", 4, 4096),
    ("|--workers|1|--window|1", 1, 1),
    ("|--window|1|--workers|1", 1, 1),
    ("|--workers|64|--window|4096", 64, 4096),
    ("|--window|4096|--workers|64", 64, 4096),
    ("|--workers|3|--window|5", 3, 5),
    ("|--window|5|--workers|3", 3, 5),
];

// Words, seed and noise.
static FOR_CHANNEL: [(&str, u64, u16); 20] = [
    ("", 42, 0),
    ("|--seed|0", 0, 0),
    ("|--seed|1", 1, 0),
    ("|--seed|42", 42, 0),
    ("|--seed|00000000000000000007", 7, 0),
    ("|--seed|9223372036854775808", 9223372036854775808, 0),
    ("|--seed|18446744073709551614", 18446744073709551614, 0),
    ("|--seed|18446744073709551615", 18446744073709551615, 0),
    ("|--seed|09999999999999999999", 9999999999999999999, 0),
    ("|--noise|0", 42, 0),
    ("|--noise|1", 42, 1),
    ("|--noise|000", 42, 0),
    ("|--noise|65534", 42, 65534),
    ("|--noise|65535", 42, 65535),
    ("|--noise|00000000000000065535", 42, 65535),
    ("|--seed|42|--noise|0", 42, 0),
    ("|--noise|0|--seed|42", 42, 0),
    ("|--seed|0|--noise|65535", 0, 65535),
    (
        "|--noise|3|--seed|18446744073709551615",
        18446744073709551615,
        3,
    ),
    ("|--noise|10|--seed|20", 20, 10),
];

// The numbers of a demonstration: seed, noise, frames, the bandwidth's code and the MCS, length, workers and window.
type Demo = (u64, u16, u16, (u8, u8), u16, u8, u16);

static DEMOS: [(&str, Demo); 18] = [
    ("", (42, 0, 8, (0, 0), 100, 4, 256)),
    ("|--frames|1", (42, 0, 1, (0, 0), 100, 4, 256)),
    ("|--frames|64", (42, 0, 64, (0, 0), 100, 4, 256)),
    ("|--frames|08", (42, 0, 8, (0, 0), 100, 4, 256)),
    ("|--mcs|0", (42, 0, 8, (0, 0), 100, 4, 256)),
    ("|--mcs|31", (42, 0, 8, (0, 31), 100, 4, 256)),
    ("|--mcs|015", (42, 0, 8, (0, 15), 100, 4, 256)),
    ("|--bandwidth|20", (42, 0, 8, (0, 0), 100, 4, 256)),
    ("|--bandwidth|40", (42, 0, 8, (1, 0), 100, 4, 256)),
    ("|--bandwidth|00040", (42, 0, 8, (1, 0), 100, 4, 256)),
    ("|--length|1", (42, 0, 8, (0, 0), 1, 4, 256)),
    ("|--length|65535", (42, 0, 8, (0, 0), 65535, 4, 256)),
    (
        "|--seed|18446744073709551615|--noise|65535",
        (18446744073709551615, 65535, 8, (0, 0), 100, 4, 256),
    ),
    (
        "|--workers|64|--window|4096",
        (42, 0, 8, (0, 0), 100, 64, 4096),
    ),
    (
        "|--frames|64|--length|1|--window|4096",
        (42, 0, 64, (0, 0), 1, 4, 4096),
    ),
    (
        "|--seed|1|--noise|2|--frames|3|--mcs|4|--bandwidth|40|--length|6|--workers|7|--window|8",
        (1, 2, 3, (1, 4), 6, 7, 8),
    ),
    (
        "|--window|8|--workers|7|--length|6|--bandwidth|40|--mcs|4|--frames|3|--noise|2|--seed|1",
        (1, 2, 3, (1, 4), 6, 7, 8),
    ),
    (
        "|--mcs|9|--window|16|--seed|0|--bandwidth|20|--workers|1|--noise|0|--length|9|--frames|2",
        (0, 0, 2, (0, 9), 9, 1, 16),
    ),
];

// The beginning of some lists of words, and how they go on: between two of these stands a semicolon. None is accepted.
static REFUSED: [(&str, &str); 59] = [
    // Commands that there aren't.
    (
        "",
        ";Detect;DETECT; detect;detect ;detec;detects;rxx;r;receive;help;--help;-h",
    ),
    (
        "",
        "--version;--;-;--workers;--workers|4;radio|rx;4;detect|rx;|rx;certif;checks",
    ),
    ("", "softs;man;lrxs"),
    // Words that are no options, or options with no number.
    (
        "rx|",
        ";--workers;--window;4;--workers|4|--window;--workers|4|5;--workers|4|",
    ),
    ("detect|", "-;--"),
    ("channel|", "--noise|1|--seed"),
    ("demo|", "--seed"),
    ("tx|", ";tx;1|2"),
    ("upgrade|", ";2"),
    ("certify|", ";check"),
    ("check|", ";check"),
    ("soft|", ""),
    ("many|", "2"),
    ("lrx|", "lrx"),
    // Options in other spellings.
    (
        "rx|",
        "--workers=4;--workers=4|4;--workers=|4;--window=7|--workers|4;-w|4;-workers|4",
    ),
    (
        "rx|",
        "workers|4;--Workers|4;--WORKERS|4;--worker|4;--workers |4; --workers|4",
    ),
    (
        "rx|",
        "---workers|4;--work|4;--|4;--workers|--|4;--help;--help|1;-h;--version|1",
    ),
    ("rx|", "4|--workers;--workers|--window|4|5"),
    ("demo|", "--rate|1;--bw|20;--count|1"),
    // Options that come twice.
    (
        "rx|",
        "--workers|4|--workers|4;--workers|4|--workers|5;--window|1|--window|1",
    ),
    ("rx|", "--workers|4|--window|1|--workers|4"),
    ("channel|", "--seed|1|--seed|1;--noise|0|--seed|1|--noise|0"),
    ("demo|", "--mcs|1|--mcs|1"),
    (
        "demo|",
        "--seed|1|--noise|2|--frames|3|--mcs|4|--bandwidth|40|--length|6|--workers|7|--window|8|--seed|1",
    ),
    // Options of other commands.
    (
        "rx|",
        "--seed|1;--noise|1;--frames|1;--mcs|1;--bandwidth|20;--length|1",
    ),
    ("detect|", "--seed|42;--noise|0;--workers|4|--seed|42"),
    (
        "channel|",
        "--workers|4;--window|256;--frames|8;--mcs|0;--bandwidth|20;--length|100",
    ),
    ("tx|", "--workers|4;--window|256;--seed|42;--length|100"),
    ("upgrade|", "--seed|42;--workers|4;--noise|0"),
    ("certify|", "--seed|42;--workers|4"),
    ("check|", "--seed|42;--workers|4"),
    ("soft|", "--seed|42"),
    ("many|", "--noise|0"),
    ("lrx|", "--seed|42"),
    // What is no number.
    (
        "rx|--workers|",
        "; 4;4 ;+4;-4;-0;4.0;4e0;0x4;4_0;four;4,5;٤;４",
    ),
    ("rx|--window|", "+256"),
    ("channel|--seed|", "+42;-1"),
    ("channel|--noise|", "+0"),
    ("demo|", "--mcs|+0;--bandwidth|20MHz;--length|1 0"),
    // Numbers out of their range.
    (
        "rx|--workers|",
        "0;00;65;256;260;65540;18446744073709551620",
    ),
    ("rx|--window|", "0;4097;65536;65792;18446744073709551617"),
    ("channel|--noise|", "65536;65537;18446744073709551616"),
    (
        "channel|--seed|",
        "18446744073709551616;18446744073709551617;18446744073709551658",
    ),
    ("channel|--seed|", "99999999999999999999"),
    ("demo|--frames|", "0;65;264"),
    ("demo|--mcs|", "32;33;256"),
    ("demo|--bandwidth|", "0;1;19;21;30;39;41;276;80"),
    ("demo|--length|", "0;65536;65636"),
    ("demo|", "--workers|0;--window|4097"),
    // Numbers of more than 20 digits.
    ("rx|--workers|", "000000000000000000004"),
    ("rx|--window|", "000000000000000000256"),
    (
        "channel|--seed|",
        "000000000000000000042;000000000000000000000;100000000000000000000",
    ),
    ("channel|--seed|", "018446744073709551615"),
    ("channel|--noise|", "000000000000000000000"),
    (
        "demo|",
        "--mcs|0000000000000000000000000;--seed|340282366920938463463374607431768211456",
    ),
    // One number of several out of its range.
    (
        "rx|",
        "--workers|4|--window|0;--workers|65|--window|1;--workers|08|--window|0",
    ),
    ("rx|", "--workers|0|--window|8"),
    (
        "demo|",
        "--seed|1|--noise|65536;--mcs|31|--bandwidth|40|--length|0",
    ),
    (
        "demo|",
        "--seed|1|--noise|2|--frames|3|--mcs|4|--bandwidth|30|--length|6|--workers|7|--window|8",
    ),
];

// What words that a text names ask for.
fn asked(alloc: Global, text: &str) -> Result<Option<Asked>, AllocError> {
    let mut words = Vec::new(alloc);
    for word in text.split('|') {
        words.push(String::from_str(alloc, word)?)?;
    }
    Asked::of(alloc, &words)
}

// Asserts that each of these commands with these options asks for this.
fn accepts(
    rt: &impl Abort,
    alloc: Global,
    options: &str,
    wants: &[(&str, Asked)],
) -> Result<(), Fail> {
    for &(command, want) in wants {
        let text = format!(in alloc; "{command}{options}")?;
        let asked = asked(alloc, &text)?;
        equal(rt, (text.as_str(), asked), (text.as_str(), Some(want)));
    }
    Ok(())
}

// Asserts that these words aren't accepted.
fn refuses(rt: &impl Abort, alloc: Global, text: &str) -> Result<(), Fail> {
    let asked = asked(alloc, text)?;
    equal(rt, (text, asked), (text, None));
    Ok(())
}

#[test]
fn accepts_workers(rt: HostRuntime) -> Result<(), Fail> {
    for &(options, workers, window) in &FOR_WORKERS {
        let wants = [
            ("detect", Asked::Detect { workers, window }),
            ("rx", Asked::Rx { workers, window }),
            ("soft", Asked::Soft { workers, window }),
            ("many", Asked::Many { workers, window }),
            ("lrx", Asked::LegacyRx { workers, window }),
        ];
        accepts(&rt, rt.alloc(), options, &wants)?;
    }
    Ok(())
}

#[test]
fn accepts_channels(rt: HostRuntime) -> Result<(), Fail> {
    for &(options, seed, noise) in &FOR_CHANNEL {
        let channel = Asked::Channel { seed, noise };
        let legacy = Asked::LegacyChannel { seed, noise };
        accepts(
            &rt,
            rt.alloc(),
            options,
            &[("channel", channel), ("lchannel", legacy)],
        )?;
    }
    Ok(())
}

#[test]
fn accepts_demonstrations(rt: HostRuntime) -> Result<(), Fail> {
    for &(options, (seed, noise, frames, (bandwidth, mcs), length, workers, window)) in &DEMOS {
        let demo = Asked::Demo {
            seed,
            noise,
            frames,
            rate: Rate::of(bandwidth, mcs)?,
            length,
            workers,
            window,
        };
        accepts(&rt, rt.alloc(), options, &[("demo", demo)])?;
    }
    Ok(())
}

#[test]
fn accepts_bare_commands(rt: HostRuntime) -> Result<(), Fail> {
    let wants = [
        ("tx", Asked::Tx),
        ("upgrade", Asked::Upgrade),
        ("certify", Asked::Certify),
        ("check", Asked::Check),
    ];
    accepts(&rt, rt.alloc(), "", &wants)
}

#[test]
fn refuses_other_words(rt: HostRuntime) -> Result<(), Fail> {
    equal(&rt, Asked::of(rt.alloc(), &[])?, None);
    for (beginning, ends) in &REFUSED {
        for end in ends.split(';') {
            let text = format!(in rt.alloc(); "{beginning}{end}")?;
            refuses(&rt, rt.alloc(), &text)?;
        }
    }
    Ok(())
}

// An option: its name, its least and its greatest value, a number above that, and two spellings of the least value, of
// 20 digits and of 21.
type Edges = [&'static str; 6];

static EDGES: [Edges; 8] = [
    [
        "--workers",
        "1",
        "64",
        "65",
        "00000000000000000001",
        "000000000000000000001",
    ],
    [
        "--window",
        "1",
        "4096",
        "4097",
        "00000000000000000001",
        "000000000000000000001",
    ],
    [
        "--seed",
        "0",
        "18446744073709551615",
        "18446744073709551616",
        "00000000000000000000",
        "000000000000000000000",
    ],
    [
        "--noise",
        "0",
        "65535",
        "65536",
        "00000000000000000000",
        "000000000000000000000",
    ],
    [
        "--frames",
        "1",
        "64",
        "65",
        "00000000000000000001",
        "000000000000000000001",
    ],
    [
        "--mcs",
        "0",
        "31",
        "32",
        "00000000000000000000",
        "000000000000000000000",
    ],
    [
        "--bandwidth",
        "20",
        "40",
        "41",
        "00000000000000000020",
        "000000000000000000020",
    ],
    [
        "--length",
        "1",
        "65535",
        "65536",
        "00000000000000000001",
        "000000000000000000001",
    ],
];

// Each command, and the options that it has.
static COMMANDS: [(&str, &str); 12] = [
    ("detect", "--workers --window"),
    ("rx", "--workers --window"),
    ("soft", "--workers --window"),
    ("many", "--workers --window"),
    ("tx", ""),
    ("channel", "--seed --noise"),
    ("upgrade", ""),
    ("certify", ""),
    ("check", ""),
    ("lchannel", "--seed --noise"),
    ("lrx", "--workers --window"),
    (
        "demo",
        "--seed --noise --frames --mcs --bandwidth --length --workers --window",
    ),
];

// The good spellings of an option and its number, and the bad ones: `N` stands for the name, `L`, `M`, `A`, `P` and `Q`
// for the least and the greatest value, the number above, and the least value in 20 digits and in 21.
static GOOD: [&str; 3] = ["N|L", "N|M", "N|P"];

static BAD: [&str; 10] = [
    "N|A", "N|Q", "N|+L", "N|-L", "N|L ", "N|", "N", "N=L", "N|L|N|L", "L|N",
];

// An option behind a command, in this spelling.
fn spelled(alloc: Global, command: &str, edges: &Edges, form: &str) -> Result<String, AllocError> {
    let [name, least, most, above, padded, long] = *edges;
    let mut text = format!(in alloc; "{command}|")?;
    for c in form.chars() {
        match c {
            'N' => text.push_str(name)?,
            'L' => text.push_str(least)?,
            'M' => text.push_str(most)?,
            'A' => text.push_str(above)?,
            'P' => text.push_str(padded)?,
            'Q' => text.push_str(long)?,
            _ => text.push(c)?,
        }
    }
    Ok(text)
}

// Asserts that a command takes an option in good spellings exactly where it has it, and never in bad ones.
fn takes(
    rt: &impl Abort,
    alloc: Global,
    command: &str,
    edges: &Edges,
    has: bool,
) -> Result<(), Fail> {
    for form in GOOD {
        let text = spelled(alloc, command, edges, form)?;
        let is_taken = asked(alloc, &text)?.is_some();
        equal(rt, (text.as_str(), is_taken), (text.as_str(), has));
    }
    for form in BAD {
        refuses(rt, alloc, &spelled(alloc, command, edges, form)?)?;
    }
    Ok(())
}

// Each option behind each command, in three good spellings and in ten bad ones.
#[test]
fn takes_its_own_options(rt: HostRuntime) -> Result<(), Fail> {
    for (command, options) in &COMMANDS {
        for edges in &EDGES {
            let has = options.split(' ').any(|option| option == edges[0]);
            takes(&rt, rt.alloc(), command, edges, has)?;
        }
    }
    Ok(())
}
