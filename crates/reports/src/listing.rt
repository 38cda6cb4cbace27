//! Listing the rows of a walk, a line for each.

ghost use Rattle.std.specs.Prelude.{◌≡◌, ◌<◌, ◌≤◌, None};
ghost use Rattle.walks.specs.Acts.{Stays};
ghost use Rattle.walks.specs.Walks.{network_of, place_of, Begun};
ghost use Rattle.reports.specs.Filling.{PutsRows, SaysFollows, ListsRows, ListsPrinted};

use crate::sinks::Sink;
use receivers::TextWriter;
use walks::Walk;
use weights::WeightKind;

// How many rows and why they ended is told as `Walk::pour` tells it, by a number and a letter.

/// Puts the lines of the rows that come next out, as many as 4,096 places hold and up to so many. Answers how many rows
/// there were, and the letter of the reason for which it ended.
fn put_rows<K: WeightKind, S: Sink>(walk: &mut Walk<K>, out: &mut S, limit: u32) -> (u32, char)
    requires begun { Begun K.WeightKind.weighing walk.old }
    ensures puts { PutsRows K.WeightKind.weighing walk.old walk.new S.Sink.took out.old out.new limit result.0 result.1 }
    ensures stays { Stays K.WeightKind.weighing walk.old walk.new }
    ensures within { result.0 ≤ limit }
    ensures some { result.1 ≡ 70 → 0 < result.0 }
{
    let mut places = [0; 4096];
    let mut writer = TextWriter::new(&mut places);
    let poured = walk.pour(&mut writer, limit);
    let used = writer.used();
    out.put(&places[..used]);
    poured
}

/// Puts the lines of the first rows out, up to so many. Answers how many rows there were, and the letter of the reason
/// for which it ended.
fn list_rows<K: WeightKind, S: Sink>(walk: &mut Walk<K>, out: &mut S, limit: u32) -> (u32, char)
    requires begun { Begun K.WeightKind.weighing walk.old }
    requires before { place_of walk.old ≡ None }
    ensures lists { ListsRows K.WeightKind.weighing walk.old walk.new S.Sink.took out.old out.new limit result.0 result.1 }
    ensures within { result.0 ≤ limit }
    ensures stays { Stays K.WeightKind.weighing walk.old walk.new }
{
    let mut count = 0;
    loop {
        let (taken, letter) = put_rows(walk, out, limit - count);
        count += taken;
        if letter != 'F' {
            return (count, letter);
        }
    }
}

/// Whether a row follows; the walk then moves to it.
fn follows<K: WeightKind>(walk: &mut Walk<K>) -> bool
    requires begun { Begun K.WeightKind.weighing walk.old }
    ensures says { SaysFollows K.WeightKind.weighing walk.old walk.new result }
    ensures stays { Stays K.WeightKind.weighing walk.old walk.new }
{
    let mut list = [0; 64];
    walk.next(&mut list).is_ok()
}

/// Puts the lines of the first thousand rows out. Answers how many rows there were, and the letter of the ending: `Z`,
/// the sites are not joined; `X`, no row follows; `L`, a row follows. Where there are rows the walk is then on a row.
pub(crate) fn list<K: WeightKind, S: Sink>(walk: &mut Walk<K>, out: &mut S) -> (u32, char)
    requires begun { Begun K.WeightKind.weighing walk.old }
    requires before { place_of walk.old ≡ None }
    ensures lists { ListsPrinted K.WeightKind.weighing walk.old walk.new S.Sink.took out.old out.new result.0 result.1 }
    ensures network { network_of walk.new ≡ network_of walk.old }
    ensures letter { result.1 < 128 }
{
    let (count, letter) = list_rows(walk, out, 1000);
    if letter != 'L' {
        return (count, letter);
    }
    if follows(walk) {
        (count, 'L')
    } else {
        (count, 'X')
    }
}
