// A line of a script read as a command.
ghost use Rattle.std.specs.Prelude.{◌≡◌, Ok, Some};
ghost use Rattle.text.specs.declared.flaw.WordFlaw.TheVariants.{TooFewWords};
ghost use Rattle.text.specs.Reading.{next, paired, behind};
ghost use Rattle.script.specs.Commands.{byte_of, long_of, only_byte_of, only_long_of, count_of, two_bytes_of, start_of, decide_of, entry_of, shares_of, phold_of, calendar_for, size_for, model_for, command_for, command_in};
ghost use Rattle.script.specs.Written.{Fits, written};

use crate::command::{CalendarKind, Command, ModelSize};
use crate::flaw::Flaw;
use crate::keyword::{Keyword, ModelKind};
use event::Start;
use text::{WordFlaw, Words, parse_number};

// The next word as a number of 8 bits.
fn byte(words: &mut Words) -> Result<u8, WordFlaw>
    ensures { behind result words.new ≡ next TooFewWords byte_of words.old paired }
{
    let n = words.number(0, u32::from(u8::MAX))?;
    // at most 255: a `try_from` would refuse what cannot come
    Ok(n as u8)
}

// The next word as a number of 32 bits.
fn long(words: &mut Words) -> Result<u32, WordFlaw>
    ensures { behind result words.new ≡ next TooFewWords long_of words.old paired }
{
    words.number(0, u32::MAX)
}

// One number of 8 bits.
fn only_byte(mut words: Words) -> Result<u8, WordFlaw>
    ensures { result ≡ only_byte_of words.entry }
{
    let n = byte(&mut words)?;
    words.end(n)
}

// One number of 32 bits.
fn only_long(mut words: Words) -> Result<u32, WordFlaw>
    ensures { result ≡ only_long_of words.entry }
{
    let n = long(&mut words)?;
    words.end(n)
}

// Two numbers of 8 bits.
fn two_bytes(mut words: Words) -> Result<(u8, u8), WordFlaw>
    ensures { result ≡ two_bytes_of words.entry }
{
    let first = byte(&mut words)?;
    let second = byte(&mut words)?;
    words.end((first, second))
}

// How many steps: one, where no number is given.
fn count(mut words: Words) -> Result<u32, WordFlaw>
    ensures { result ≡ count_of words.entry }
{
    let Some(word) = words.next() else {
        return Ok(1);
    };
    let n = parse_number(word, 0, u32::MAX)?;
    words.end(n)
}

// The numbers of a starting message.
fn start(mut words: Words) -> Result<Start, WordFlaw>
    ensures { result ≡ start_of words.entry }
{
    let time = long(&mut words)?;
    let receiver = byte(&mut words)?;
    let kind = byte(&mut words)?;
    let data = long(&mut words)?;
    words.end(Start {
        time,
        receiver,
        kind,
        data,
    })
}

// The numbers of an order.
fn decide(mut words: Words) -> Result<Command, WordFlaw>
    ensures { result ≡ decide_of words.entry }
{
    let variant = byte(&mut words)?;
    let place = byte(&mut words)?;
    let order = long(&mut words)?;
    words.end(Command::Decide {
        variant,
        place,
        order,
    })
}

// A variant and a position in its journal.
fn entry(mut words: Words) -> Result<Command, WordFlaw>
    ensures { result ≡ entry_of words.entry }
{
    let variant = byte(&mut words)?;
    let position = long(&mut words)?;
    words.end(Command::Entry { variant, position })
}

// Two variants and a place.
fn shares(mut words: Words) -> Result<Command, WordFlaw>
    ensures { result ≡ shares_of words.entry }
{
    let variant = byte(&mut words)?;
    let other = byte(&mut words)?;
    let place = byte(&mut words)?;
    words.end(Command::Shares {
        variant,
        other,
        place,
    })
}

// The numbers of a PHOLD model.
fn phold(mut words: Words) -> Result<ModelSize, WordFlaw>
    ensures { result ≡ phold_of words.entry }
{
    let places = byte(&mut words)?;
    let seed = long(&mut words)?;
    let replication = byte(&mut words)?;
    words.end(ModelSize::Phold {
        places,
        seed,
        replication,
    })
}

// The numbers of a model of this kind.
fn size(kind: ModelKind, words: Words) -> Result<ModelSize, WordFlaw>
    ensures { result ≡ size_for kind words.entry }
{
    match kind {
        ModelKind::Collection => {
            let (farms, tankers) = two_bytes(words)?;
            Ok(ModelSize::Collection { farms, tankers })
        }
        ModelKind::Phold => phold(words),
    }
}

// The name of a calendar.
fn calendar(mut words: Words) -> Result<CalendarKind, Flaw>
    ensures { result ≡ calendar_for words.entry }
{
    let word = words.next().ok_or(WordFlaw::TooFewWords)?;
    let kind = CalendarKind::try_from(word)?;
    Ok(words.end(kind)?)
}

// The name of a model and its numbers.
fn model(mut words: Words) -> Result<ModelSize, Flaw>
    ensures { result ≡ model_for words.entry }
{
    let word = words.next().ok_or(WordFlaw::TooFewWords)?;
    let kind = ModelKind::try_from(word)?;
    Ok(size(kind, words)?)
}

// What a line asks for after its first word.
fn command(keyword: Keyword, words: Words) -> Result<Command, Flaw>
    ensures { result ≡ command_for keyword words.entry }
{
    match keyword {
        Keyword::Calendar => Ok(Command::Calendar(calendar(words)?)),
        Keyword::Model => Ok(Command::Model(model(words)?)),
        Keyword::Start => Ok(Command::Start(start(words)?)),
        Keyword::Load => {
            let end = only_long(words)?;
            Ok(Command::Load { end })
        }
        Keyword::Step => {
            let count = count(words)?;
            Ok(Command::Step { count })
        }
        Keyword::Branch => {
            let variant = only_byte(words)?;
            Ok(Command::Branch { variant })
        }
        Keyword::Decide => Ok(decide(words)?),
        Keyword::Waive => {
            let variant = only_byte(words)?;
            Ok(Command::Waive { variant })
        }
        Keyword::Retire => {
            let variant = only_byte(words)?;
            Ok(Command::Retire { variant })
        }
        Keyword::Events => {
            let variant = only_byte(words)?;
            Ok(Command::Events { variant })
        }
        Keyword::Entry => Ok(entry(words)?),
        Keyword::Journal => {
            let variant = only_byte(words)?;
            Ok(Command::Journal { variant })
        }
        Keyword::Place => {
            let (variant, place) = two_bytes(words)?;
            Ok(Command::Place { variant, place })
        }
        Keyword::Next => {
            let variant = only_byte(words)?;
            Ok(Command::Next { variant })
        }
        Keyword::Shares => Ok(shares(words)?),
        Keyword::Group => {
            let (variant, place) = two_bytes(words)?;
            Ok(Command::Group { variant, place })
        }
        Keyword::Totals => Ok(words.end(Command::Totals)?),
    }
}

// What a line asks for, if anything. A command that is written out is read back.
pub fn read_line(line: &[u8]) -> Result<Option<Command>, Flaw>
    ensures value { result ≡ command_in line.now }
    ensures back { (c : Command) → Fits c → line.now ≡ written c → result ≡ Ok (Some c) }
{
    let mut words = Words::of(line);
    let Some(word) = words.next() else {
        return Ok(None);
    };
    let keyword = Keyword::try_from(word)?;
    Ok(Some(command(keyword, words)?))
}
