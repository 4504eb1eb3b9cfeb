//! Draws a day as SVG. Its lengths are tenths of a pixel.

ghost use Rattle.std.specs.Prelude.{◌≡◌, ◌≢◌, ◌≤◌, All, IfErr, IfNone, IfSome, []};
ghost use Rattle.vixplot.specs.Answers.{IsTickInRange, mark_of};
ghost use Rattle.vixplot.specs.Days.{AreMarks, figures_of};
ghost use Rattle.vixplot.specs.Pictures.{IsDrawingFault, IsInPicture, IsWithinScale, IsWithinTimes};

use crate::answer::{Answer, Tick};
use crate::axis::{Scale, Times};
use crate::day::{Mark, Marks, counts_of, figures_of, marks_of};
use crate::fault::Fault;
use crate::limits::{HEIGHT, LEFT, TOP, WIDTH};
use std::alloc::Global;
use std::io;

/// The scale of the times of some ticks, where there is one.
fn times_of(ticks: &[Tick]) -> Option<Times>
    requires range { All IsTickInRange ticks.now }
    ensures within { IfSome result (λ times. All (IsWithinTimes times) ticks.now) }
    ensures some { IfSome result (λ _. ticks.now ≢ []) }
    ensures none { IfNone result (ticks.now ≡ []) }
{
    let first = ticks.iter().min_by_key(|tick| tick.minute)?;
    let last = ticks.iter().max_by_key(|tick| tick.minute)?;
    Some(Times::between(first.minute, last.minute))
}

/// The scale of figures around those that are told.
fn scale_of(ticks: &[Tick], marks: &Marks) -> Scale
    requires range { All IsTickInRange ticks.now }
    requires marks { AreMarks (figures_of ticks.now) marks.now }
    ensures within { All (λ tick. IfSome (mark_of tick) (IsWithinScale result)) ticks.now }
    ensures figures { All (IsWithinScale result) (figures_of ticks.now) }
{
    Scale::around(marks.low.cents, marks.high.cents)
}

/// Prints the picture of a day: how its ticks are answered; where there is a tick, the scale of times
/// around all of them and a bar for each that has no figure; and where there is a figure, the scale of
/// figures around all of them, the line of the figures, and the first, the last, a lowest and a highest.
///
/// # Errors
///
/// The output's refusal, at any line of the picture, and want of memory where there is a tick: no other
/// fault. No clause can say which bytes an output holds; what is drawn is stated where it is computed, at
/// `times_of`, `figures_of`, `marks_of` and `scale_of`.
pub fn draw(rt: &impl Print, alloc: Global, ticks: &[Tick]) -> Result<(), Fault>
    requires range { All IsTickInRange ticks.now }
    ensures causes { IfErr result (IsDrawingFault ticks.now) }
{
    println!(rt;
        "<svg xmlns=\"http://www.w3.org/2000/svg\" viewBox=\"0 0 12000 5600\" width=\"1200\" height=\"560\" font-family=\"sans-serif\" font-size=\"150\">"
    )?;
    println!(rt; "<rect width=\"12000\" height=\"5600\" fill=\"#ffffff\"/>")?;
    println!(rt;
        "<text x=\"900\" y=\"350\" font-size=\"220\">Volatility index over the day</text>"
    )?;
    draw_counts(rt, ticks)?;
    match times_of(ticks) {
        Some(times) => draw_ticks(rt, alloc, &times, ticks)?,
        None => println!(rt; "<text x=\"900\" y=\"650\">no tick</text>")?,
    }
    println!(rt; "</svg>")?;
    Ok(())
}

/// How many ticks there are, and how they are answered.
fn draw_counts(rt: &impl Print, ticks: &[Tick]) -> io::Result<()> {
    let counts = counts_of(ticks);
    println!(rt;
        "<text x=\"11700\" y=\"350\" text-anchor=\"end\" fill=\"#555555\">{} ticks: {} published, {} undecided, {} refused</text>",
        counts.ticks, counts.published, counts.undecided, counts.refused
    )
}

/// The scale of times, the gaps, and the figures.
fn draw_ticks(rt: &impl Print, alloc: Global, times: &Times, ticks: &[Tick]) -> Result<(), Fault>
    requires some { ticks.now ≢ [] }
    requires range { All IsTickInRange ticks.now }
    requires times { All (IsWithinTimes times.now) ticks.now }
    ensures causes { IfErr result (IsDrawingFault ticks.now) }
{
    draw_times(rt, times)?;
    draw_gaps(rt, times, ticks)?;
    let figures = figures_of(alloc, ticks)?;
    match marks_of(&figures) {
        Some(marks) => draw_figures(rt, times, ticks, &marks)?,
        None => println!(rt; "<text x=\"900\" y=\"650\">no figure</text>")?,
    }
    Ok(())
}

/// The lines of the scale of times, with their times.
fn draw_times(rt: &impl Print, times: &Times) -> io::Result<()> {
    for minute in times.first..=times.last {
        if minute % times.step == 0 {
            let x = times.place(minute);
            println!(rt;
                "<path d=\"M{x},{TOP}v{HEIGHT}\" stroke=\"#eeeeee\" stroke-width=\"10\"/>"
            )?;
            println!(rt;
                "<text x=\"{x}\" y=\"5150\" text-anchor=\"middle\">{:02}:{:02}</text>",
                minute / 60,
                minute % 60
            )?;
        }
    }
    Ok(())
}

/// A bar for each tick without a figure; its word shows on hover.
fn draw_gaps(rt: &impl Print, times: &Times, ticks: &[Tick]) -> io::Result<()>
    requires { All (IsWithinTimes times.now) ticks.now }
{
    let width = times.bar_width();
    for tick in ticks {
        if !tick.answer.is_published() {
            let colour = if tick.answer.is_refused() {
                "#f0b8ac"
            } else {
                "#f8dca0"
            };
            let x = times.place(tick.minute) - width / 2;
            println!(rt;
                "<rect x=\"{x}\" y=\"{TOP}\" width=\"{width}\" height=\"{HEIGHT}\" fill=\"{colour}\"><title>{:02}:{:02} {}</title></rect>",
                tick.minute / 60,
                tick.minute % 60,
                tick.answer
            )?;
        }
    }
    Ok(())
}

/// The scale of figures, the figures, and those of them that are told.
fn draw_figures(rt: &impl Print, times: &Times, ticks: &[Tick], marks: &Marks) -> io::Result<()>
    requires range { All IsTickInRange ticks.now }
    requires times { All (IsWithinTimes times.now) ticks.now }
    requires marks { AreMarks (figures_of ticks.now) marks.now }
{
    let scale = scale_of(ticks, marks);
    draw_scale(rt, &scale)?;
    draw_line(rt, times, &scale, ticks)?;
    draw_mark(rt, times, &scale, "low", marks.low)?;
    draw_mark(rt, times, &scale, "high", marks.high)?;
    draw_mark(rt, times, &scale, "first", marks.first)?;
    draw_mark(rt, times, &scale, "last", marks.last)?;
    tell_marks(rt, marks)
}

/// The lines of the scale of figures, with their numbers.
fn draw_scale(rt: &impl Print, scale: &Scale) -> io::Result<()> {
    for i in 0..=(scale.last - scale.first) / scale.step {
        let cents = scale.first + i * scale.step;
        let y = scale.place(cents);
        println!(rt; "<path d=\"M{LEFT},{y}h{WIDTH}\" stroke=\"#dddddd\" stroke-width=\"10\"/>")?;
        println!(rt;
            "<text x=\"800\" y=\"{}\" text-anchor=\"end\">{}.{:02}</text>",
            y + 50,
            cents / 100,
            cents % 100
        )?;
    }
    Ok(())
}

/// The figures, one line for each run of ticks that have one.
fn draw_line(rt: &impl Print, times: &Times, scale: &Scale, ticks: &[Tick]) -> io::Result<()>
    requires times { All (IsWithinTimes times.now) ticks.now }
    requires scale { All (λ tick. IfSome (mark_of tick) (IsWithinScale scale.now)) ticks.now }
{
    println!(rt;
        "<path fill=\"none\" stroke=\"#004488\" stroke-width=\"28\" stroke-linecap=\"round\" stroke-linejoin=\"round\" d=\""
    )?;
    let mut is_run = false;
    for tick in ticks {
        if let Answer::Figure(cents) = tick.answer {
            let x = times.place(tick.minute);
            let y = scale.place(cents);
            if is_run {
                println!(rt; "L{x},{y}")?;
            } else {
                println!(rt; "M{x},{y}h0")?;
            }
            is_run = true;
        } else {
            is_run = false;
        }
    }
    println!(rt; "\"/>")
}

/// A dot at a figure; its name shows on hover.
fn draw_mark(
    rt: &impl Print,
    times: &Times,
    scale: &Scale,
    name: &str,
    mark: Mark,
) -> io::Result<()>
    requires { IsInPicture times.now scale.now mark }
{
    println!(rt;
        "<circle cx=\"{}\" cy=\"{}\" r=\"45\" fill=\"#004488\"><title>{name} {}.{:02} at {:02}:{:02}</title></circle>",
        times.place(mark.minute),
        scale.place(mark.cents),
        mark.cents / 100,
        mark.cents % 100,
        mark.minute / 60,
        mark.minute % 60
    )
}

/// The figures that are told, in words.
fn tell_marks(rt: &impl Print, marks: &Marks) -> io::Result<()> {
    println!(rt; "<text x=\"750\" y=\"650\">")?;
    tell_mark(rt, "first", marks.first)?;
    tell_mark(rt, "last", marks.last)?;
    tell_mark(rt, "low", marks.low)?;
    tell_mark(rt, "high", marks.high)?;
    println!(rt; "</text>")
}

fn tell_mark(rt: &impl Print, name: &str, mark: Mark) -> io::Result<()> {
    println!(rt;
        "<tspan dx=\"150\" fill=\"#555555\">{name}</tspan> {}.{:02} <tspan fill=\"#555555\">{:02}:{:02}</tspan>",
        mark.cents / 100,
        mark.cents % 100,
        mark.minute / 60,
        mark.minute % 60
    )
}
