//! Whoever starts a server reads its settings.

use crate::answers::add_text;
use crate::digest::{Digest, Failed};
use crate::draw::{Draw, Pool};
use crate::offers::{Offers, add_offers};
use std::alloc::Global;
use ua_disco::{Settings, SettingsFault};

/// The languages of the names of an application.
const LANGUAGES: [&str; 10] = ["en", "de", "fr", "es", "it", "pt", "nl", "pl", "cs", "sv"];

/// What a document has: so many names and endpoints; certificates of so many bytes, or none where that is 0; and a last
/// line.
#[derive(Clone, Copy)]
pub struct Shape<'a> {
    pub names: u32,
    pub endpoints: u32,
    pub certificate: u32,
    pub last: &'a str,
}

/// The language of the name of that number.
pub fn put_language(text: &mut String, n: u32) -> Result<(), Failed> {
    let language = LANGUAGES[n as usize % 10];
    write!(text, "{language}-{n}")?;
    Ok(())
}

fn put_names(text: &mut String, draw: &mut Draw, names: u32) -> Result<(), Failed> {
    for n in 0..names {
        let number = draw.half();
        text.push_str("[[application.names]]\nlocale = \"")?;
        put_language(text, n)?;
        writeln!(text, "\"\ntext = \"Press {number}\"")?;
    }
    Ok(())
}

fn put_application(text: &mut String, draw: &mut Draw, names: u32) -> Result<(), Failed> {
    let number = draw.half();
    writeln!(
        text,
        "version = 1\n\n[application]\nuri = \"urn:plant-3:press-{number}\"\nproduct_uri = \"urn:example:press\""
    )?;
    writeln!(
        text,
        "discovery_urls = [\"opc.tcp://press-{number}.example:4840\"]\n"
    )?;
    put_names(text, draw, names)
}

/// An endpoint without security.
fn put_plain(text: &mut String, number: u32) -> Result<(), Failed> {
    writeln!(
        text,
        "\n[[endpoint]]\nurl = \"opc.tcp://press-{number}.example:4840\"\n\n[[endpoint.tokens]]\nid = \"anonymous\""
    )?;
    Ok(())
}

/// An endpoint that is signed and encrypted, with a certificate and two tokens.
fn put_secured(
    text: &mut String,
    draw: &mut Draw,
    pool: &Pool,
    certificate: u32,
) -> Result<(), Failed> {
    let number = draw.half();
    writeln!(
        text,
        "\n[[endpoint]]\nurl = \"opc.tcp://press-{number}.example:4840\"\nmode = 3"
    )?;
    writeln!(
        text,
        "policy = \"http://opcfoundation.org/UA/SecurityPolicy#Basic256Sha256\"\nlevel = 20"
    )?;
    let digits = (certificate as usize)
        .wrapping_add(draw.below(200) as usize)
        .wrapping_mul(2);
    let Ok(digits) = std::str::from_utf8(pool.some(draw, digits)) else {
        return Err(Failed);
    };
    text.push_str("certificate = \"")?;
    text.push_str(digits)?;
    text.push_str("\"\n")?;
    writeln!(
        text,
        "\n[[endpoint.tokens]]\nid = \"operator-{number}\"\ntype = 1"
    )?;
    writeln!(
        text,
        "\n[[endpoint.tokens]]\nid = \"certificate\"\ntype = 2"
    )?;
    Ok(())
}

/// Puts a document of this shape, with drawn texts.
fn put_document(
    text: &mut String,
    draw: &mut Draw,
    pool: &Pool,
    shape: &Shape,
) -> Result<(), Failed> {
    put_application(text, draw, shape.names)?;
    for _ in 0..shape.endpoints {
        if shape.certificate == 0 {
            let number = draw.half();
            put_plain(text, number)?;
        } else {
            put_secured(text, draw, pool, shape.certificate)?;
        }
    }
    text.push_str(shape.last)?;
    Ok(())
}

/// What reading a drawn document of this shape gives.
pub fn drawn_settings(
    alloc: Global,
    draw: &mut Draw,
    pool: &Pool,
    shape: &Shape,
) -> Result<Settings, SettingsFault> {
    let mut text = String::new(alloc);
    match put_document(&mut text, draw, pool, shape) {
        Ok(()) => Settings::from_toml(alloc, text.as_bytes()),
        Err(Failed) => Err(SettingsFault::NoMemory),
    }
}

/// The number of a fault, and the path that it names.
fn parts_of(fault: &SettingsFault) -> (u64, &str) {
    match fault {
        SettingsFault::NoMemory => (6, ""),
        SettingsFault::NotToml => (1, ""),
        SettingsFault::Missing(path) => (2, path.as_str()),
        SettingsFault::WrongKind(path) => (3, path.as_str()),
        SettingsFault::BadValue(path) => (4, path.as_str()),
        SettingsFault::UnknownKey(path) => (5, path.as_str()),
    }
}

/// What comes of a document with so many names, where it is read or refused.
trait Told {
    fn tell(&self, names: u32, offers: &mut Offers) -> Result<(), Failed>;
}

impl Told for Settings {
    fn tell(&self, names: u32, offers: &mut Offers) -> Result<(), Failed> {
        add_front(self, offers.digest);
        add_offers(offers, self, names)
    }
}

fn add_front(settings: &Settings, digest: &mut Digest) {
    add_text(digest, settings.first_uri());
    let limits = settings.limits();
    for n in [
        limits.receive,
        limits.send,
        limits.max_message,
        limits.max_chunks,
    ] {
        digest.add(u64::from(n));
    }
    match settings.first_url() {
        Some(url) => add_text(digest, url),
        None => digest.add_none(),
    }
}

impl Told for SettingsFault {
    fn tell(&self, _names: u32, offers: &mut Offers) -> Result<(), Failed> {
        let (number, path) = parts_of(self);
        offers.digest.add(number);
        offers.digest.add_bytes(path.as_bytes());
        Ok(())
    }
}

fn tell<T: Told + Drop, E: Told + Drop>(
    read: Result<T, E>,
    names: u32,
    offers: &mut Offers,
) -> Result<(), Failed> {
    match read {
        Ok(value) => value.tell(names, offers),
        Err(fault) => fault.tell(names, offers),
    }
}

/// The shapes of one round, and how often each comes.
const SHAPES: [(u32, Shape); 4] = [
    (
        12,
        Shape {
            names: 4,
            endpoints: 100,
            certificate: 1_100,
            last: "",
        },
    ),
    (
        1,
        Shape {
            names: 20,
            endpoints: 2_000,
            certificate: 900,
            last: "",
        },
    ),
    (
        1,
        Shape {
            names: 4,
            endpoints: 6_000,
            certificate: 0,
            last: "\n[limits]\nmax_chunks = 0\n",
        },
    ),
    (
        1,
        Shape {
            names: 6_000,
            endpoints: 3,
            certificate: 0,
            last: "",
        },
    ),
];

/// Documents of each shape.
fn round(offers: &mut Offers, pool: &Pool, draw: &mut Draw) -> Result<(), Failed> {
    offers.place = draw.half();
    for (times, shape) in &SHAPES {
        for _ in 0..*times {
            let read = drawn_settings(offers.alloc, draw, pool, shape);
            tell(read, shape.names, offers)?;
        }
    }
    Ok(())
}

fn rounds_of(offers: &mut Offers, pool: &Pool, draw: &mut Draw, rounds: u32) -> Result<(), Failed> {
    for n in 0..rounds {
        offers.whole = n == 0;
        round(offers, pool, draw)?;
    }
    Ok(())
}

/// So many times documents of each shape. Of those of the first round the whole is added.
pub fn settings(
    alloc: Global,
    pool: &Pool,
    draw: &mut Draw,
    rounds: u32,
    digest: &mut Digest,
) -> Result<(), Failed> {
    let mut body = Vec::new(alloc);
    let mut out = Vec::new(alloc);
    let mut offers = Offers {
        alloc,
        body: &mut body,
        out: &mut out,
        digest,
        whole: false,
        place: 0,
    };
    rounds_of(&mut offers, pool, draw, rounds)
}
