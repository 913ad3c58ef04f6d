// What a line says: nothing, a setting of the day, a milking, or a choice.
ghost use Rattle.std.specs.Prelude.{◌≡◌, ◌≤◌, IfOk};
ghost use Rattle.text.specs.Text.{said, words_of};
ghost use Rattle.dayfile.specs.declared.flaw.FlawKind.TheVariants.{Word};
ghost use Rattle.text.specs.declared.flaw.WordFlaw.TheVariants.{TooFewWords};
ghost use Rattle.text.specs.Reading.{next, paired, behind};
ghost use Rattle.dayfile.specs.Lines.{numbered, the_word, only_number_of, moment_of, milking_of, choice_of, once, entry_for, entry_of};

use crate::flaw::FlawKind;
use crate::word::{Keyword, preference};
use collection::{Kind, Preference};
use event::Start;
use text::{WordFlaw, Words};

// What the lines so far have set.
#[derive(Clone, Copy, Default)]
pub(crate) struct Settings {
    pub farms: Option<u8>,
    pub tankers: Option<u8>,
    pub end: Option<u32>,
}

// What one line says, where it says something.
#[derive(Clone, Copy)]
pub(crate) enum Entry {
    // with what it sets
    Set(Settings),
    Milked(Start),
    After { events: u32, preference: Preference },
}

// The next word as a number from `low` to `high`.
fn next_number(words: &mut Words, low: u32, high: u32) -> Result<u32, FlawKind>
    ensures value { behind result words.new ≡ numbered low high words.old paired }
    ensures within { IfOk result (λ n. n ≤ high) }
{
    Ok(words.number(low, high)?)
}

// The next word, which has to be this one.
fn expect(words: &mut Words, wanted: &[u8], missing: FlawKind) -> Result<(), FlawKind>
    ensures { behind result words.new ≡ next (Word TooFewWords) (the_word wanted.now missing) words.old paired }
{
    let word = words.next().ok_or(WordFlaw::TooFewWords)?;
    if word != wanted {
        return Err(missing);
    }
    Ok(())
}

// One number up to `high`, and nothing more.
fn only_number(mut words: Words, high: u32) -> Result<u32, FlawKind>
    ensures value { result ≡ only_number_of high words.entry }
    ensures within { IfOk result (λ n. n ≤ high) }
{
    let n = next_number(&mut words, 0, high)?;
    Ok(words.end(n)?)
}

// "at" and a time, and nothing more.
fn moment(mut words: Words) -> Result<u32, FlawKind>
    ensures { result ≡ moment_of words.entry }
{
    expect(&mut words, b"at", FlawKind::AtMissing)?;
    only_number(words, u32::MAX)
}

// A farm of the file, litres, and the moment of the milking.
fn milking(mut words: Words, farms: u8) -> Result<Start, FlawKind>
    ensures { result ≡ milking_of farms words.entry }
{
    let farm = next_number(&mut words, 1, u32::from(farms))?;
    let litres = next_number(&mut words, 0, u32::MAX)?;
    let time = moment(words)?;
    Ok(Start {
        time,
        // at most `farms`: a `try_from` would refuse what cannot come
        receiver: farm as u8,
        kind: Kind::Milked.into(),
        data: litres,
    })
}

// The events after which a preference is tried, and nothing more.
fn choice(mut words: Words) -> Result<Entry, FlawKind>
    ensures { result ≡ choice_of words.entry }
{
    let events = next_number(&mut words, 0, u32::MAX)?;
    expect(&mut words, b"events", FlawKind::EventsMissing)?;
    expect(&mut words, b"try", FlawKind::TryMissing)?;
    let word = words.next().ok_or(WordFlaw::TooFewWords)?;
    let preference = preference(word)?;
    Ok(words.end(Entry::After { events, preference })?)
}

// The number up to `high` of what is given once, where `before` was given before.
fn given_once<T: Copy>(before: Option<T>, words: Words, high: u32) -> Result<u32, FlawKind>
    ensures value { result ≡ once before (only_number_of high words.entry) }
    ensures within { IfOk result (λ n. n ≤ high) }
{
    match before {
        Some(_) => Err(FlawKind::GivenTwice),
        None => only_number(words, high),
    }
}

impl Settings {
    // What a line says after its first word.
    fn entry_by(self, keyword: Keyword, words: Words) -> Result<Entry, FlawKind>
        ensures { result ≡ entry_for self keyword words.entry }
    {
        match keyword {
            Keyword::Farms => {
                let farms = given_once(self.farms, words, u32::from(u8::MAX))?;
                // at most 255, as in the next arm: a `try_from` would refuse what cannot come
                Ok(Entry::Set(Settings {
                    farms: Some(farms as u8),
                    ..self
                }))
            }
            Keyword::Tankers => {
                let tankers = given_once(self.tankers, words, u32::from(u8::MAX))?;
                Ok(Entry::Set(Settings {
                    tankers: Some(tankers as u8),
                    ..self
                }))
            }
            Keyword::End => {
                let end = given_once(self.end, words, u32::MAX)?;
                Ok(Entry::Set(Settings {
                    end: Some(end),
                    ..self
                }))
            }
            Keyword::Milked => {
                let farms = self.farms.ok_or(FlawKind::MilkedBeforeFarms)?;
                Ok(Entry::Milked(milking(words, farms)?))
            }
            Keyword::After => choice(words),
        }
    }

    // What a line says, if anything, where the lines before it have set this much.
    pub(crate) fn entry(self, line: &[u8]) -> Result<Option<Entry>, FlawKind>
        ensures { result ≡ entry_of self (words_of (said line.now)) }
    {
        let mut words = Words::of(line);
        let Some(word) = words.next() else {
            return Ok(None);
        };
        let keyword = Keyword::try_from(word)?;
        Ok(Some(self.entry_by(keyword, words)?))
    }
}
