//! The texts of a picture's elements.
ghost use Rattle.std.specs.Prelude.{◌≡◌, ◌++◌, OnOk};
ghost use Rattle.std.specs.String.{string_bytes};
ghost use Rattle.its_draw.specs.Elements as spec;

use crate::places::Point;
use std::alloc::AllocError;
use std::fmt::Write;

/// Adds where an element stands.
#[tactic(auto, unfolding(crate::specs::Elements::at_text))]
fn push_at(out: &mut String, at: Point) -> Result<(), AllocError>
    ensures { OnOk result (string_bytes out.new ≡ string_bytes out.old ++ spec.at_text at) }
{
    write!(out, " x='{}' y='{}'", at.x, at.y)
}

/// Adds from where to where a line goes.
#[tactic(auto, unfolding(crate::specs::Elements::ends_text))]
fn push_ends(out: &mut String, from: Point, to: Point) -> Result<(), AllocError>
    ensures { OnOk result (string_bytes out.new ≡ string_bytes out.old ++ spec.ends_text from to) }
{
    push_start(out, from)?;
    push_goal(out, to)
}

#[tactic(auto, unfolding(crate::specs::Elements::start_text))]
fn push_start(out: &mut String, at: Point) -> Result<(), AllocError>
    ensures { OnOk result (string_bytes out.new ≡ string_bytes out.old ++ spec.start_text at) }
{
    write!(out, " x1='{}' y1='{}'", at.x, at.y)
}

#[tactic(auto, unfolding(crate::specs::Elements::goal_text))]
fn push_goal(out: &mut String, at: Point) -> Result<(), AllocError>
    ensures { OnOk result (string_bytes out.new ≡ string_bytes out.old ++ spec.goal_text at) }
{
    write!(out, " x2='{}' y2='{}'", at.x, at.y)
}

/// Adds the beginning of an element of a class.
#[tactic(auto, unfolding(crate::specs::Elements::begin_text))]
fn push_begin(out: &mut String, element: &str, class: &str) -> Result<(), AllocError>
    ensures { OnOk result (string_bytes out.new
        ≡ string_bytes out.old ++ spec.begin_text element.now class.now) }
{
    write!(out, "<{element} class='{class}'")
}

/// Adds a line.
#[tactic(auto, unfolding(crate::specs::Elements::line_text))]
pub fn push_line(out: &mut String, class: &str, from: Point, to: Point) -> Result<(), AllocError>
    ensures { OnOk result (string_bytes out.new
        ≡ string_bytes out.old ++ spec.line_text class.now from to) }
{
    push_begin(out, "line", class)?;
    push_ends(out, from, to)?;
    out.push_str("/>\n")
}

/// Adds a sign, by its name.
#[tactic(auto, unfolding(crate::specs::Elements::sign_text))]
pub fn push_sign(out: &mut String, sign: &str, class: &str, at: Point) -> Result<(), AllocError>
    ensures { OnOk result (string_bytes out.new
        ≡ string_bytes out.old ++ spec.sign_text sign.now class.now at) }
{
    push_begin(out, "use", class)?;
    push_at(out, at)?;
    push_name(out, sign)
}

#[tactic(auto, unfolding(crate::specs::Elements::name_text))]
fn push_name(out: &mut String, sign: &str) -> Result<(), AllocError>
    ensures { OnOk result (string_bytes out.new ≡ string_bytes out.old ++ spec.name_text sign.now) }
{
    writeln!(out, " href='#{sign}'/>")
}

/// Adds words.
#[tactic(auto, unfolding(crate::specs::Elements::words_text))]
pub fn push_words(out: &mut String, class: &str, at: Point, words: &str) -> Result<(), AllocError>
    ensures { OnOk result (string_bytes out.new
        ≡ string_bytes out.old ++ spec.words_text class.now at words.now) }
{
    push_begin(out, "text", class)?;
    push_at(out, at)?;
    push_inside(out, words)
}

/// Adds what stands in an element of text.
#[tactic(auto, unfolding(crate::specs::Elements::inside_text))]
fn push_inside(out: &mut String, words: &str) -> Result<(), AllocError>
    ensures { OnOk result (string_bytes out.new
        ≡ string_bytes out.old ++ spec.inside_text words.now) }
{
    writeln!(out, ">{words}</text>")
}

/// Adds words that rise to the right.
#[tactic(auto, unfolding(crate::specs::Elements::tilted_text))]
pub fn push_tilted(out: &mut String, class: &str, at: Point, words: &str) -> Result<(), AllocError>
    ensures { OnOk result (string_bytes out.new
        ≡ string_bytes out.old ++ spec.tilted_text class.now at words.now) }
{
    push_begin(out, "text", class)?;
    push_turn(out, at)?;
    push_inside(out, words)
}

#[tactic(auto, unfolding(crate::specs::Elements::turn_text))]
fn push_turn(out: &mut String, at: Point) -> Result<(), AllocError>
    ensures { OnOk result (string_bytes out.new ≡ string_bytes out.old ++ spec.turn_text at) }
{
    push_right(out, at.x)?;
    push_down(out, at.y)
}

#[tactic(auto, unfolding(crate::specs::Elements::right_text))]
fn push_right(out: &mut String, x: u64) -> Result<(), AllocError>
    ensures { OnOk result (string_bytes out.new ≡ string_bytes out.old ++ spec.right_text x) }
{
    write!(out, " transform='translate({x},")
}

#[tactic(auto, unfolding(crate::specs::Elements::down_text))]
fn push_down(out: &mut String, y: u64) -> Result<(), AllocError>
    ensures { OnOk result (string_bytes out.new ≡ string_bytes out.old ++ spec.down_text y) }
{
    write!(out, "{y}) rotate(-38)'")
}

/// Adds a word with a number.
#[tactic(auto, unfolding(crate::specs::Elements::numbered_text))]
pub fn push_numbered(
    out: &mut String,
    class: &str,
    at: Point,
    word: &str,
    number: u64,
) -> Result<(), AllocError>
    ensures { OnOk result (string_bytes out.new
        ≡ string_bytes out.old ++ spec.numbered_text class.now at word.now number) }
{
    push_begin(out, "text", class)?;
    push_at(out, at)?;
    push_count(out, word, number)
}

#[tactic(auto, unfolding(crate::specs::Elements::count_text))]
fn push_count(out: &mut String, word: &str, number: u64) -> Result<(), AllocError>
    ensures { OnOk result (string_bytes out.new
        ≡ string_bytes out.old ++ spec.count_text word.now number) }
{
    writeln!(out, ">{word} {number}</text>")
}

/// Adds the name of an event.
#[tactic(auto, unfolding(crate::specs::Elements::event_text))]
pub fn push_event(
    out: &mut String,
    at: Point,
    its: &str,
    dev: u32,
    ev: u32,
) -> Result<(), AllocError>
    ensures { OnOk result (string_bytes out.new
        ≡ string_bytes out.old ++ spec.event_text at its.now dev ev) }
{
    push_begin(out, "text", "name")?;
    push_at(out, at)?;
    push_key(out, its, dev, ev)
}

#[tactic(auto, unfolding(crate::specs::Elements::key_text))]
fn push_key(out: &mut String, its: &str, dev: u32, ev: u32) -> Result<(), AllocError>
    ensures { OnOk result (string_bytes out.new
        ≡ string_bytes out.old ++ spec.key_text its.now dev ev) }
{
    writeln!(out, ">{its}dev {dev} ev {ev}</text>")
}

/// Adds the bar of an event.
#[tactic(auto, unfolding(crate::specs::Elements::rect_text))]
pub fn push_rect(out: &mut String, from: Point, width: u64) -> Result<(), AllocError>
    ensures { OnOk result (string_bytes out.new
        ≡ string_bytes out.old ++ spec.rect_text from width) }
{
    push_begin(out, "rect", "bar")?;
    push_at(out, from)?;
    push_size(out, width)
}

#[tactic(auto, unfolding(crate::specs::Elements::size_text))]
fn push_size(out: &mut String, width: u64) -> Result<(), AllocError>
    ensures { OnOk result (string_bytes out.new ≡ string_bytes out.old ++ spec.size_text width) }
{
    writeln!(out, " width='{width}' height='10' rx='3'/>")
}

/// Begins a group of elements that have one title.
#[tactic(auto, unfolding(crate::specs::Elements::group_text))]
pub fn push_group(out: &mut String, class: &str, title: &str) -> Result<(), AllocError>
    ensures { OnOk result (string_bytes out.new
        ≡ string_bytes out.old ++ spec.group_text class.now title.now) }
{
    writeln!(out, "<g class='{class}'><title>{title}</title>")
}
