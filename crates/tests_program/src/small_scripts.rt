//! Scripts over the plain population of two districts a warehouse, ten customers a district and twenty items, and what
//! they write.

use crate::GOOD;
use money::Refusal;
use population::Population;
use program_script::script;
use std::alloc::Global;
use std::fmt::Write;
use std::process::Abort;
use std::sync::Wait;
use std::test::Fail;
use tables::Scale;

/// What a script writes, over so many warehouses, with this order cap and this commit cap.
pub(crate) fn written<T: Wait>(
    rt: &T,
    alloc: Global,
    (warehouses, orders, commits): (u32, u32, u32),
    input: &str,
) -> Result<Vec<u8>, Refusal> {
    let scale = Scale::new(warehouses, 2, 10, 20, orders, commits)?;
    written_over(rt, alloc, scale, input)
}

/// What a script writes, over the plain population of a scale.
fn written_over<T: Wait>(
    rt: &T,
    alloc: Global,
    scale: Scale,
    input: &str,
) -> Result<Vec<u8>, Refusal> {
    let population = Population::plain(alloc, scale)?;
    let (mut input, mut written) = (input.as_bytes(), Vec::new(alloc));
    let _ = script(rt, alloc, population, &mut input, &mut written)?;
    Ok(written)
}

/// These lines, each with its line feed.
fn text_of(alloc: Global, lines: &[&str]) -> Result<String, Fail> {
    let mut text = String::new(alloc);
    for line in lines {
        write!(text, "{line}\n")?;
    }
    Ok(text)
}

/// The scale of most scripts here.
fn small() -> Result<Scale, Refusal> {
    Scale::new(1, 2, 10, 20, 30, 1_000)
}

/// Asserts that a script over a scale writes these answers, and then that so many lines have committed and that every
/// condition holds.
fn assert_written(
    rt: &(impl Abort + AllocGlobal + Wait),
    scale: Scale,
    input: &str,
    answers: &str,
    commits: u32,
) -> Result<(), Fail> {
    let written = written_over(rt, rt.alloc(), scale, input)?;
    let expected = format!(in rt.alloc(); "{answers}commits {commits}\n{GOOD}")?;
    assert_eq!(rt; written.as_slice(), expected.as_bytes());
    Ok(())
}

/// Asserts that the lines of a script over one warehouse have these answers, and that so many of them commit.
pub(crate) fn assert_answers(
    rt: &(impl Abort + AllocGlobal + Wait),
    lines: &[&str],
    answers: &[&str],
    commits: u32,
) -> Result<(), Fail> {
    assert_answers_over(rt, small()?, lines, answers, commits)
}

/// The same over another scale.
pub(crate) fn assert_answers_over(
    rt: &(impl Abort + AllocGlobal + Wait),
    scale: Scale,
    lines: &[&str],
    answers: &[&str],
    commits: u32,
) -> Result<(), Fail> {
    let input = text_of(rt.alloc(), lines)?;
    let answers = text_of(rt.alloc(), answers)?;
    assert_written(rt, scale, input.as_str(), answers.as_str(), commits)
}

/// The lines of a script, and their answers: each line is this beginning with one of these ends, and has the refusal of
/// the number beside that.
fn refused_of(
    alloc: Global,
    beginning: &str,
    refused: &[(&str, u32)],
) -> Result<(String, String), Fail> {
    let (mut input, mut answers) = (String::new(alloc), String::new(alloc));
    for (index, (end, refusal)) in refused.iter().enumerate() {
        write!(input, "{beginning}{end}\n")?;
        write!(answers, "{refusal} line {}\n", index + 1)?;
    }
    Ok((input, answers))
}

/// Asserts that each line of a script over one warehouse, this beginning with one of these ends, has the refusal of the
/// number beside that, and that nothing commits.
pub(crate) fn assert_refused(
    rt: &(impl Abort + AllocGlobal + Wait),
    beginning: &str,
    refused: &[(&str, u32)],
) -> Result<(), Fail> {
    let (input, answers) = refused_of(rt.alloc(), beginning, refused)?;
    assert_written(rt, small()?, input.as_str(), answers.as_str(), 0)
}
