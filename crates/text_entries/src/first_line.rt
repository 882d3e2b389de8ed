//! What a set was opened with, as a line.
ghost use Rattle.std.specs.Prelude.{◌≡◌, ◌++◌, IfOk, codes, decimal};
ghost use Rattle.set_model.specs.State.{settings_of};
ghost use Rattle.text_entries.specs.FirstLine.{method_text, profile_text, settings_text, history_text, IsReadBack, OneLine};

use super::writing::write_entries;
use l2_units::Profile;
use set_events::{Method, SetConfig};
use set_history::Reader;
use std::alloc::{AllocError, Global};
use text_base::push_hex;

/// The text of the history of a set that was opened with this configuration; it fails only where memory is wanted.
/// It doesn't tell the set's number, and the profile only where it's the wide one.
pub fn write_history(
    alloc: Global,
    config: &SetConfig,
    entries: Reader<'_>,
) -> Result<Vec<u8>, AllocError>
    ensures { IfOk result (λ text. text.items
        ≡ history_text (settings_of config.now) entries.entry) }
{
    let mut text = write_config(alloc, config)?;
    text.push(b'\n')?;
    text.extend_from_slice(&write_entries(alloc, config.profile(), entries)?)?;
    Ok(text)
}

/// The first line, without its LF.
fn write_config(alloc: Global, config: &SetConfig) -> Result<Vec<u8>, AllocError>
    ensures { IfOk result (λ text. text.items ≡ settings_text (settings_of config.now)) }
{
    let links = config.links;
    let mut text = format!(in alloc; "set links={links} method=")?.into_bytes();
    text.extend_from_slice(&write_method(alloc, config.method)?)?;
    text.extend_from_slice(&write_codes(alloc, config.opc, config.dpc)?)?;
    push_hex(&mut text, &[config.sio])?;
    text.extend_from_slice(profile_word(config.profile()).as_bytes())?;
    Ok(text)
}

/// The word of the profile, with a space before it; the narrow one has none.
fn profile_word(profile: Profile) -> &'static str
    ensures { result.now ≡ profile_text profile }
{
    match profile {
        Profile::Narrow => "",
        Profile::Wide => " profile=wide",
    }
}

/// How messages are kept safe.
fn write_method(alloc: Global, method: Method) -> Result<Vec<u8>, AllocError>
    ensures { IfOk result (λ text. text.items ≡ method_text method) }
{
    match method {
        Method::Basic => Vec::from_slice(alloc, b"basic"),
        Method::Cyclic { n1, n2 } => Ok(format!(in alloc; "cyclic:{n1}:{n2}")?.into_bytes()),
    }
}

/// The point codes, and the name of what follows.
fn write_codes(alloc: Global, own: u16, far: u16) -> Result<Vec<u8>, AllocError>
    ensures { IfOk result (λ text. text.items ≡
        codes " a=" ++ (decimal own ++ (codes " b=" ++ (decimal far ++ codes " sio=")))) }
{
    Ok(format!(in alloc; " a={own} b={far} sio=")?.into_bytes())
}

/// A law over the definitions alone: the first line is read back as what was written.
pub fn reads_back()
    ensures { IsReadBack }
{}

/// The same law told otherwise: one first line for a configuration, and no other has it.
pub fn one_line()
    ensures { OneLine }
{
    reads_back();
}
