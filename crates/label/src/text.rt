//! The text of a label.

ghost use Rattle.std.specs.Prelude.{◌≡◌, ◌+◌, ◌≤◌, ◌++◌, length, take, drop};
ghost use Rattle.label.specs.Texts.{label_text, picked_text, floor_text, grain_text, arrivals_text};

use crate::Label;
use digits::{Text, put};
use rules::{Grain, Picked};

/// Room for any label's text, and a line feed after it.
pub const LABEL_ROOM: usize = 200;

/// The text of the label. However many centres the pick counts, at most twelve arrivals stand in it.
// Not a Display: printing can fail, and this cannot.
pub fn label_text(label: &Label) -> Text<LABEL_ROOM>
    ensures inside { length result ≤ 199 }
    ensures text { result ≡ label_text label.now }
{
    let mut line = Text::new();
    put_picked(&mut line, &label.picked);
    put_arrivals(&mut line, &label.arrivals, label.picked.count);
    line
}

/// Puts the label's text at the front of `out` and answers how long it is. The rest of the list stays. However many
/// centres the pick counts, at most twelve arrivals are put.
pub fn put_label(label: &Label, out: &mut [u8; LABEL_ROOM]) -> usize
    ensures inside { result ≤ 199 }
    ensures front { take result out.new ≡ label_text label.now }
    ensures back { drop result out.new ≡ drop result out.old }
{
    put(out, 0, label_text(label).as_slice())
}

fn put_picked(line: &mut Text<LABEL_ROOM>, picked: &Picked)
    requires { length line.old + 67 ≤ LABEL_ROOM }
    ensures is { line.new ≡ line.old ++ picked_text picked.now }
    ensures bound { length line.new ≤ length line.old + 67 }
{
    line.put(b"pick ");
    line.put_count(picked.count);
    line.put(b" radius ");
    line.put_number(picked.radius);
    line.put(b" floor ");
    put_floor(line, picked.floor);
    line.put(b" ");
    line.put(name(picked.grain));
}

/// The floor, or a minus where there is none.
fn put_floor(line: &mut Text<LABEL_ROOM>, floor: Option<u32>)
    requires { length line.old + 10 ≤ LABEL_ROOM }
    ensures is { line.new ≡ line.old ++ floor_text floor }
    ensures bound { length line.new ≤ length line.old + 10 }
{
    match floor {
        None => line.put(b"-"),
        Some(floor) => line.put_number(floor),
    }
}

fn name(grain: Grain) -> &'static [u8]
    ensures is { result.now ≡ grain_text grain }
    ensures bound { length result.now ≤ 6 }
{
    match grain {
        Grain::Fine => b"fine",
        Grain::Coarse => b"coarse",
    }
}

/// The first `count` arrivals, or all where there are fewer, each after a space.
fn put_arrivals(line: &mut Text<LABEL_ROOM>, arrivals: &[u32; 12], count: usize)
    requires { length line.old + 132 ≤ LABEL_ROOM }
    ensures is { line.new ≡ line.old ++ arrivals_text (take count arrivals.now) }
    ensures bound { length line.new ≤ length line.old + 132 }
{
    for arrival in arrivals.iter().take(count) {
        line.put(b" ");
        line.put_number(*arrival);
    }
}
