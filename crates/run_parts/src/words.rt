//! The words of the command line.
ghost use Rattle.std.specs.Prelude.{◌≡◌, ◌==◌, ◌+◌, ◌≤◌, map, slice_index, string_bytes};
ghost use Rattle.std.specs.Char.{is_ascii_digit};
ghost use Rattle.std.specs.List.{list_all};
ghost use Rattle.run_parts.specs.Usage.{are_plain_digits, asked_pages, form_end, form_of, image_form, images_form, make_form, more_images, run_form, script_form, try_form, verb_form, version_form};

use domain_faults::Version;
use domain_faults::limits::{MAX_VOLUME_PAGES, MAX_VOLUMES};

/// What a command line asks for.
#[derive(Clone, Copy, Debug, PartialEq, Eq)]
pub enum Form {
    /// A script over a new domain in memory, on a volume of `pages` pages.
    Try { pages: u32 },
    /// A script over the domain in images, one for each volume.
    Run,
    /// An empty domain of this version in an image. Unless it is overwritten, an image that holds
    /// something is refused.
    Make { version: Version, overwrites: bool },
    /// The faults of the domain in images, one for each volume.
    Verify,
}

fn are_digits(bytes: &[u8]) -> bool
    ensures { result ≡ list_all is_ascii_digit bytes.now }
{
    bytes.iter().all(|byte| byte.is_ascii_digit())
}

fn begins_with_zero(bytes: &[u8]) -> bool
    ensures { result ≡ (slice_index bytes.now 0 == 48) }
{
    bytes.first() == Some(&b'0')
}

/// Whether the bytes are decimal digits and the first is not 0.
fn are_plain_digits(bytes: &[u8]) -> bool
    ensures { result ≡ are_plain_digits bytes.now }
{
    are_digits(bytes) && !begins_with_zero(bytes)
}

/// The smallest number of pages that may be asked for a volume of `try`. A domain needs more.
const MIN_PAGES_ASKED: u32 = 64;

/// How many pages a word asks for; None if a volume may not have that many.
fn pages_in(word: &str) -> Option<u32>
    ensures { result ≡ asked_pages word.now }
{
    if !are_plain_digits(word.as_bytes()) {
        return None;
    }
    match word.parse::<u32>() {
        Ok(pages) if MIN_PAGES_ASKED <= pages && pages <= MAX_VOLUME_PAGES => Some(pages),
        _ => None,
    }
}

/// The form, which has `count` words, if no word is left after it.
fn end_form(words: &[String], count: u32, form: Form) -> Result<Form, u32>
    ensures { result ≡ form_end count form (map string_bytes words.now) }
{
    match words.is_empty() {
        true => Ok(form),
        false => Err(count),
    }
}

/// The form of `try`, from the words after it.
fn try_asked(words: &[String]) -> Result<Form, u32>
    ensures { result ≡ try_form (map string_bytes words.now) }
{
    let Some(word) = words.first() else {
        return Err(1);
    };
    let rest = &words[1..];
    match pages_in(word.as_str()) {
        Some(pages) => end_form(rest, 2, Form::Try { pages }),
        None => Err(1),
    }
}

/// The form of one image, whose name comes after `count` words.
fn image_asked(words: &[String], count: u32, form: Form) -> Result<Form, u32>
    requires { count ≤ 3 }
    ensures { result ≡ image_form count form (map string_bytes words.now) }
{
    let Some(word) = words.first() else {
        return Err(count);
    };
    let rest = &words[1..];
    if word.as_str().is_empty() {
        return Err(count);
    }
    end_form(rest, count + 1, form)
}

/// The form of at most `most` more images, whose names come after `count` words.
fn more_asked(words: &[String], most: u32, count: u32, form: Form) -> Result<Form, u32>
    requires { count + most ≤ 20 }
    ensures { result ≡ more_images most count form (map string_bytes words.now) }
{
    let Some(word) = words.first() else {
        return Ok(form);
    };
    let rest = &words[1..];
    if word.as_str().is_empty() || most == 0 {
        return Err(count);
    }
    more_asked(rest, most - 1, count + 1, form)
}

/// The form of one to eight images, whose names come after `count` words.
fn images_asked(words: &[String], count: u32, form: Form) -> Result<Form, u32>
    requires { count ≤ 3 }
    ensures { result ≡ images_form count form (map string_bytes words.now) }
{
    if words.is_empty() {
        return Err(count);
    }
    more_asked(words, MAX_VOLUMES, count, form)
}

/// The form of `run` from its script on, which comes after `count` words.
fn script_asked(words: &[String], count: u32) -> Result<Form, u32>
    requires { count ≤ 2 }
    ensures { result ≡ script_form count (map string_bytes words.now) }
{
    let Some(word) = words.first() else {
        return Err(count);
    };
    let rest = &words[1..];
    if word.as_str().is_empty() {
        return Err(count);
    }
    images_asked(rest, count + 1, Form::Run)
}

/// The word of `run` that has images opened for reading alone.
pub const LOOK_WORD: &str = "-r";

/// The word of `mkfdmn` that has an image overwritten, whatever it holds.
pub const OVER_WORD: &str = "-o";

/// The form of `run`, from the words after it: a script, and images.
fn run_asked(words: &[String]) -> Result<Form, u32>
    ensures { result ≡ run_form (map string_bytes words.now) }
{
    let Some(word) = words.first() else {
        return Err(1);
    };
    let rest = &words[1..];
    if word.as_str() == LOOK_WORD {
        return script_asked(rest, 2);
    }
    script_asked(words, 1)
}

/// The form of `mkfdmn` for this version, from the words after the first `count`.
fn version_asked(words: &[String], count: u32, version: Version) -> Result<Form, u32>
    requires { count ≤ 2 }
    ensures { result ≡ version_form count version (map string_bytes words.now) }
{
    let Some(word) = words.first() else {
        return Err(count);
    };
    let rest = &words[1..];
    if word.as_str() == OVER_WORD {
        let form = Form::Make {
            version,
            overwrites: true,
        };
        return image_asked(rest, count + 1, form);
    }
    let form = Form::Make {
        version,
        overwrites: false,
    };
    image_asked(words, count, form)
}

/// The form of `mkfdmn`, from the words after it.
fn make_asked(words: &[String]) -> Result<Form, u32>
    ensures { result ≡ make_form (map string_bytes words.now) }
{
    let Some(word) = words.first() else {
        return Err(1);
    };
    let rest = &words[1..];
    if word.as_str() == "-3" {
        return version_asked(rest, 2, Version::Three);
    }
    version_asked(words, 1, Version::Four)
}

/// What the command line asks for. If it is not understood, the error is how many words stand
/// before the first one that is out of place; if the line stops too early, that is all of them.
#[tactic(auto, unfolding(crate::specs::Usage::form_of))]
pub fn form_asked(words: &[String]) -> Result<Form, u32>
    ensures { result ≡ form_of (map string_bytes words.now) }
{
    let Some(verb) = words.first() else {
        return Err(0);
    };
    let rest = &words[1..];
    match verb.as_str() {
        "try" => try_asked(rest),
        "run" => run_asked(rest),
        "mkfdmn" => make_asked(rest),
        "verify" => images_asked(rest, 1, Form::Verify),
        _ => Err(0),
    }
}
