//! Answering a sheet, and the answer as a line.

ghost use Rattle.std.specs.Prelude.{◌≡◌, ℕ};
ghost use Rattle.networks.specs.Refusals.{line_of};
ghost use Rattle.texts.specs.Lines.{line_bytes};
ghost use Rattle.reports.specs.Answers.{kind_of, told_of, Answers, AnswersAs, line_of_answer, sound_line};
ghost use Rattle.reports.specs.declared.answers.Kind.TheVariants.{Metres as metres, CrossingsMetres as crossings};

use crate::answers::{Answer, Contents, Kind};
use crate::loading::{counts, load_as};
use networks::{Network, Refusal, Report};
use texts::Line;
use weights::{Crossings, Metres, Pair, WeightKind};

/// The kind that a sheet is read as: P where its byte 5 says so, and W otherwise.
pub fn kind_of(sheet: &[u8]) -> Kind
    ensures { result ≡ kind_of sheet.now }
{
    match sheet.get(5) {
        Some(b'P') => Kind::CrossingsMetres,
        _ => Kind::Metres,
    }
}

/// Loads the sheet as a network of the kind that it is read as, and answers its sites and links, or the refusal.
pub fn answer(sheet: &[u8]) -> Answer
    ensures { Answers sheet.now result }
{
    match kind_of(sheet) {
        Kind::Metres => answer_metres(sheet),
        Kind::CrossingsMetres => answer_crossings(sheet),
    }
}

// By kind, so that only the places of the kind that is read are cleared.

fn answer_metres(sheet: &[u8]) -> Answer
    ensures { AnswersAs metres sheet.now result }
{
    told(load_as::<Metres>(sheet))
}

fn answer_crossings(sheet: &[u8]) -> Answer
    ensures { AnswersAs crossings sheet.now result }
{
    told(load_as::<Pair<Crossings, Metres>>(sheet))
}

/// What is answered where loading gave this.
fn told<K: WeightKind>(loaded: Result<Network<K>, Refusal>) -> Answer
    ensures { result ≡ told_of loaded }
{
    let network = loaded?;
    Ok(counts(&network))
}

/// The line that is printed of an answer, without its end.
pub fn line(answer: &Answer) -> Line
    ensures { line_bytes result ≡ line_of_answer answer.now }
{
    match answer {
        Ok(counts) => sound_line(*counts),
        Err(refusal) => refused_line(refusal.to_report()),
    }
}

// The lines are put together by hand: `write!` promises its text only where it succeeds, and no contract says that it does.
fn sound_line(counts: Contents) -> Line
    ensures { line_bytes result ≡ sound_line counts.sites counts.links }
{
    let mut line = Line::new();
    line.put(b"sites ");
    line.put_number(counts.sites as u64);
    line.put(b" links ");
    line.put_number(counts.links as u64);
    line
}

fn refused_line(report: Report) -> Line
    ensures { line_bytes result ≡ line_of report }
{
    let mut line = Line::new();
    line.put(b"refused ");
    line.put_number(report.number as u64);
    line.put(b" at ");
    line.put_number(report.place as u64);
    line.put(b" in ");
    line.put(report.layer.name().as_bytes());
    line
}
