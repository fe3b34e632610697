// From words to a command.

ghost use Rattle.std.specs.Prelude.{◌≡◌, ◌∷◌, true, map, All, IfOk, IfErr, IfSome, IfNone};
ghost use Rattle.std.specs.Str.{IsUtf8};
ghost use Rattle.std.specs.Str.Parse.{digits_value};
ghost use Rattle.command_words.specs.declared.command.WordsFault.TheVariants.{Memory, Refused};
ghost use Rattle.clap.specs.Words.{app_of};
ghost use Rattle.clap.specs.Values.{kind_of};
ghost use Rattle.clap.specs.declared.error.ErrorKind.TheVariants.{OutOfMemory};
ghost use Rattle.script_tree.specs.declared.limits.TheConstants.{VERSIONS as MOST};
ghost use Rattle.command_words.specs.Parser.{app};
ghost use Rattle.command_words.specs.Words.{IsLimit, ReadsWords};
ghost use Rattle.command_words.specs.Options.{AreNoOptions};
ghost use Rattle.command_words.specs.Table.{ReadsByTable, word_of, takes_number};
ghost use Rattle.command_words.specs.Blocks.{AreSome, Gives, ReadsOptions};

use crate::command::{Command, WordsFault};
use crate::kinds::Kinds;
use crate::operand::number_of;
use crate::options::{are_options, limit_of};
use crate::verb::Verb;
use clap::error::ErrorKind;
use clap::{Arg, ArgAction, Error};
use script_tree::items::Text;
use script_tree::limits::VERSIONS;
use std::alloc::{AllocError, Global};
use std::str;

/// The values of options.
#[derive(Clone, Copy)]
struct Values {
    versions: u32,
    json: bool,
}

// A word as text.
fn text_of(word: &Text) -> Result<&str, WordsFault>
    ensures ok { IfOk result (λ text. text.now ≡ word.now) }
    ensures err { IfErr result (λ fault. IsUtf8 word.now → ⊥) }
{
    match str::from_utf8(word.as_slice()) {
        Ok(text) => Ok(text),
        Err(_) => Err(WordsFault::Refused),
    }
}

// The words as text. Words that aren't UTF-8 are refused.
#[tactic(auto, using(crate::proofs::Asked::one_not))]
fn texts<'a>(alloc: Global, words: &'a [Text]) -> Result<Vec<&'a str>, WordsFault>
    ensures ok { IfOk result (λ texts. map (λ s. s.now) texts.items ≡ words.now) }
    ensures err { IfErr result (λ fault. fault ≡ Refused → All IsUtf8 words.now → ⊥) }
{
    let mut texts = Vec::new(alloc);
    for word in words {
        match text_of(word) {
            Ok(text) => texts.push(text).map_err(AllocError::from)?,
            Err(fault) => return Err(fault),
        }
    }
    Ok(texts)
}

// The parser of options, of all kinds.
fn option_parser<'a>(alloc: Global) -> Result<clap::Command<'a>, AllocError>
    ensures { IfOk result (λ command. app_of command ≡ app) }
{
    let versions = Arg::new(alloc, "versions")
        .long("versions")
        .action(ArgAction::Set);
    let json = Arg::new(alloc, "json")
        .long("json")
        .action(ArgAction::SetTrue);
    clap::Command::new(alloc, "framesweep")
        .no_binary_name(true)
        .disable_help_flag(true)
        .disable_version_flag(true)
        .arg(versions)?
        .arg(json)
}

// What a fault of the parser of options is here.
fn fault(error: Error) -> WordsFault
    ensures { kind_of error ≡ OutOfMemory → result ≡ Memory }
{
    match error.kind() {
        ErrorKind::OutOfMemory => WordsFault::Memory,
        _ => WordsFault::Refused,
    }
}

// The limit that a text spells, or the greatest one where there is no text.
fn versions_of(text: Option<&str>) -> u32
    requires { IfSome text (λ t. IsLimit t.now) }
    ensures some { IfSome text.entry (λ t. result ≡ digits_value 10 t.now) }
    ensures none { IfNone text.entry (result ≡ MOST) }
{
    match text {
        None => VERSIONS,
        Some(text) => limit_of(text),
    }
}

// What the parser of options makes of options that have been tested.
fn parsed(alloc: Global, kinds: Kinds, options: &[&str]) -> Result<Values, WordsFault>
    requires { AreSome kinds (map (λ s. s.now) options.now) }
    ensures ok { IfOk result (λ values. Gives kinds (map (λ s. s.now) options.now) values.versions values.json) }
    ensures err { IfErr result (λ fault. fault ≡ Memory) }
{
    let matches = match option_parser(alloc)?.try_get_matches_from(options) {
        Ok(matches) => matches,
        Err(error) => return Err(fault(error)),
    };
    Ok(Values {
        versions: versions_of(matches.get_str("versions")),
        json: matches.get_flag("json"),
    })
}

// The values of the options behind a command's word.
#[tactic(auto, using(crate::proofs::Asked::memory_only))]
fn values_of(alloc: Global, kinds: Kinds, options: &[&str]) -> Result<Values, WordsFault>
    ensures ok { IfOk result (λ values. Gives kinds (map (λ s. s.now) options.now) values.versions values.json) }
    ensures err { IfErr result (λ fault. fault ≡ Refused → AreNoOptions kinds (map (λ s. s.now) options.now)) }
{
    if !are_options(options, kinds) {
        return Err(WordsFault::Refused);
    }
    parsed(alloc, kinds, options)
}

// A command with its number, and with the options behind that.
#[tactic(auto, using(crate::proofs::Asked::options_asked))]
fn command_with(
    alloc: Global,
    verb: Verb,
    number: u64,
    options: &[&str],
) -> Result<Command, WordsFault>
    ensures { ReadsOptions verb number (map (λ s. s.now) options.now) result }
{
    match values_of(alloc, verb.kinds(), options) {
        Ok(Values { versions, json }) => Ok(verb.command(number, versions, json)),
        Err(fault) => Err(fault),
    }
}

// A command that takes a number, with what stands behind its word.
#[tactic(auto, using(crate::proofs::Asked::numbered_laws))]
fn command_numbered(alloc: Global, verb: Verb, behind: &[&str]) -> Result<Command, WordsFault>
    requires { takes_number verb ≡ true }
    ensures { ReadsByTable (word_of verb ∷ map (λ s. s.now) behind.now) result }
{
    match behind {
        [] => Err(WordsFault::Refused),
        [text, options @ ..] => match number_of(text) {
            Some(number) => command_with(alloc, verb, number, options),
            None => Err(WordsFault::Refused),
        },
    }
}

// The command whose word is the first one, with what stands behind it.
#[tactic(auto, using(crate::proofs::Asked::command_laws))]
fn command_of(alloc: Global, first: &str, behind: &[&str]) -> Result<Command, WordsFault>
    ensures { ReadsByTable (first.now ∷ map (λ s. s.now) behind.now) result }
{
    let Some(verb) = Verb::of(first) else {
        return Err(WordsFault::Refused)
    };
    if verb.takes_number() {
        return command_numbered(alloc, verb, behind);
    }
    command_with(alloc, verb, 0, behind)
}

#[tactic(auto, using(crate::proofs::Lines::none_asked))]
fn read_texts(alloc: Global, texts: &[&str]) -> Result<Command, WordsFault>
    ensures { ReadsWords (map (λ s. s.now) texts.now) result }
{
    match texts {
        [] => Err(WordsFault::Refused),
        [first, behind @ ..] => command_of(alloc, first, behind),
    }
}

/// The command that words ask for, the words being those behind the program's name. Takes memory.
///
/// `Refused`: they are no command line. A command line is a command's word and the options behind it: `run`, `replay` or
/// `serial`, each with the options `--json` and `--versions N` (or `--versions=N`), `check` with the latter alone, or `print`, which
/// has none; or it is `make` and a number alone, which has 1 to 20 decimal digits and at most 64 bits. Each option stands at most
/// once, in any order. N has 1 to 7 decimal digits and is at most 4,000,000, which is the limit of versions without the option.
#[tactic(auto, using(crate::proofs::Lines::no_text))]
pub fn read_words(alloc: Global, words: &[Text]) -> Result<Command, WordsFault>
    ensures { ReadsWords words.now result }
{
    let texts = match texts(alloc, words) {
        Ok(texts) => texts,
        Err(fault) => return Err(fault),
    };
    read_texts(alloc, texts.as_slice())
}
