//! Settings that follow from a number: one application or several, several endpoints, certificates, tokens, and texts of drawn lengths.

use std::alloc::{AllocError, Global};

/// Numbers that follow from a seed.
#[derive(Clone, Copy)]
pub(crate) struct Draw {
    state: u32,
}

impl Draw {
    pub(crate) fn from(seed: u32) -> Draw {
        Draw { state: seed }
    }

    /// The next number, below the bound or 0.
    fn below(&mut self, bound: u32) -> u32 {
        self.state = self
            .state
            .wrapping_mul(1_664_525)
            .wrapping_add(1_013_904_223);
        (self.state >> 16) % bound.max(1)
    }

    /// The next of some texts.
    fn one_of(&mut self, texts: [&'static str; 4]) -> &'static str {
        texts[self.below(4) as usize % 4]
    }
}

/// What texts are made of: one or two bytes each.
const PIECES: [&str; 4] = ["a", "bc", "\u{E9}", "-"];

/// A quoted text of so many pieces at the most.
fn put_text(draw: &mut Draw, most: u32, text: &mut String) -> Result<(), AllocError> {
    text.push_str("\"")?;
    for _ in 0..draw.below(most.saturating_add(1)) {
        text.push_str(draw.one_of(PIECES))?;
    }
    text.push_str("\"")
}

/// A key with such a text, and what follows it.
fn put_key(
    draw: &mut Draw,
    key: &str,
    most: u32,
    behind: &str,
    text: &mut String,
) -> Result<(), AllocError> {
    text.push_str(key)?;
    text.push_str(" = ")?;
    put_text(draw, most, text)?;
    text.push_str(behind)
}

/// The same, or nothing.
fn put_some_key(
    draw: &mut Draw,
    key: &str,
    most: u32,
    behind: &str,
    text: &mut String,
) -> Result<(), AllocError> {
    if draw.below(3) == 0 {
        return Ok(());
    }
    put_key(draw, key, most, behind, text)
}

/// The keys of an application.
fn put_application(draw: &mut Draw, most: u32, text: &mut String) -> Result<(), AllocError> {
    put_key(draw, "uri", most, "\n", text)?;
    put_some_key(draw, "product_uri", most, "\n", text)?;
    put_some_key(draw, "gateway_uri", most, "\n", text)?;
    put_some_key(draw, "profile_uri", most, "\n", text)?;
    text.push_str(draw.one_of(["", "type = 1\n", "type = 2\n", "type = 3\n"]))?;
    text.push_str("names = [{ ")?;
    put_some_key(draw, "locale", 2, ", ", text)?;
    put_key(draw, "text", most, " }]\n", text)?;
    text.push_str("discovery_urls = [")?;
    for _ in 0..draw.below(4) {
        put_text(draw, most, text)?;
        text.push_str(", ")?;
    }
    text.push_str("]\n")
}

fn put_token(draw: &mut Draw, most: u32, text: &mut String) -> Result<(), AllocError> {
    text.push_str("{ ")?;
    put_some_key(draw, "policy", most, ", ", text)?;
    put_some_key(draw, "issuer_url", most, ", ", text)?;
    put_some_key(draw, "issued_type", most, ", ", text)?;
    text.push_str(draw.one_of(["", "type = 1, ", "type = 2, ", "type = 3, "]))?;
    put_key(draw, "id", most, " }, ", text)
}

/// Tokens, or none, or the key left out.
fn put_tokens(draw: &mut Draw, most: u32, text: &mut String) -> Result<(), AllocError> {
    if draw.below(4) == 0 {
        return Ok(());
    }
    text.push_str("tokens = [")?;
    for _ in 0..draw.below(4) {
        put_token(draw, most, text)?;
    }
    text.push_str("]\n")
}

/// The digits of so many bytes at the most, or the key left out.
fn put_certificate(draw: &mut Draw, most: u32, text: &mut String) -> Result<(), AllocError> {
    if draw.below(4) == 0 {
        return Ok(());
    }
    text.push_str("certificate = \"")?;
    for _ in 0..draw.below(most.saturating_add(1)) {
        text.push_str(draw.one_of(["00", "7f", "Ab", "ff"]))?;
    }
    text.push_str("\"\n")
}

fn put_endpoint(draw: &mut Draw, most: u32, text: &mut String) -> Result<(), AllocError> {
    text.push_str("[[endpoint]]\n")?;
    put_key(draw, "url", most, "\n", text)?;
    text.push_str(draw.one_of(["", "mode = 1\n", "mode = 2\n", "mode = 3\n"]))?;
    text.push_str(draw.one_of(["", "level = 0\n", "level = 9\n", "level = 255\n"]))?;
    put_some_key(draw, "policy", most, "\n", text)?;
    put_some_key(draw, "transport", most, "\n", text)?;
    put_certificate(draw, most, text)?;
    put_tokens(draw, most, text)
}

/// An application under version 1, or up to three under version 2.
fn put_applications(draw: &mut Draw, most: u32, text: &mut String) -> Result<(), AllocError> {
    if draw.below(2) == 0 {
        text.push_str("version = 1\n[application]\n")?;
        return put_application(draw, most, text);
    }
    text.push_str("version = 2\n")?;
    for _ in 0..=draw.below(3) {
        text.push_str("[[application]]\n")?;
        put_application(draw, most, text)?;
    }
    Ok(())
}

/// The text of settings with up to four endpoints, and texts of so many pieces at the most.
pub(crate) fn made(alloc: Global, draw: &mut Draw, most: u32) -> Result<String, AllocError> {
    let mut text = String::new(alloc);
    match put_all(draw, most, &mut text) {
        Ok(()) => Ok(text),
        Err(e) => Err(e),
    }
}

fn put_all(draw: &mut Draw, most: u32, text: &mut String) -> Result<(), AllocError> {
    put_applications(draw, most, text)?;
    for _ in 0..draw.below(5) {
        put_endpoint(draw, most, text)?;
    }
    Ok(())
}
