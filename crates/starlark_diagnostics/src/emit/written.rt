//! Texts with some characters replaced.
ghost use Rattle.std.specs.Prelude.{◌≡◌, ◌++◌, IfOk, OnOk, string_bytes};
ghost use Rattle.starlark_diagnostics.specs.Written as specs;
ghost use Rattle.starlark_diagnostics.specs.Written.{data_char, property_char, shown_char, written_char};

use std::alloc::{AllocError, Global};

/// Which characters are replaced.
#[derive(Clone, Copy)]
pub(crate) enum Style {
    /// As a line on a terminal: a tab is four spaces, and another control character is `\u{fffd}`.
    Shown,
    /// As the message of a command of GitHub.
    Data,
    /// As a property of a command of GitHub.
    Property,
}

/// The text in this style.
pub(crate) fn written(alloc: Global, style: Style, text: &str) -> Result<String, AllocError>
    ensures { IfOk result (λ out. string_bytes out ≡ specs.written style text.now) }
{
    let mut out = String::new(alloc);
    for c in text.chars() {
        push_char(&mut out, style, c)?;
    }
    Ok(out)
}

/// Appends a character in this style.
fn push_char(out: &mut String, style: Style, c: char) -> Result<(), AllocError>
    ensures { OnOk result (string_bytes out.new ≡ string_bytes out.old ++ written_char style c) }
{
    match style {
        Style::Shown => push_shown(out, c),
        Style::Data => push_data(out, c),
        Style::Property => push_property(out, c),
    }
}

fn push_shown(out: &mut String, c: char) -> Result<(), AllocError>
    ensures { OnOk result (string_bytes out.new ≡ string_bytes out.old ++ shown_char c) }
{
    if c == '\t' {
        out.push_str("    ")
    } else if c < ' ' || c == '\u{7f}' {
        out.push('\u{fffd}')
    } else {
        out.push(c)
    }
}

fn push_data(out: &mut String, c: char) -> Result<(), AllocError>
    ensures { OnOk result (string_bytes out.new ≡ string_bytes out.old ++ data_char c) }
{
    match c {
        '%' => out.push_str("%25"),
        '\r' => out.push_str("%0D"),
        '\n' => out.push_str("%0A"),
        _ => out.push(c),
    }
}

fn push_property(out: &mut String, c: char) -> Result<(), AllocError>
    ensures { OnOk result (string_bytes out.new ≡ string_bytes out.old ++ property_char c) }
{
    match c {
        ':' => out.push_str("%3A"),
        ',' => out.push_str("%2C"),
        _ => push_data(out, c),
    }
}
