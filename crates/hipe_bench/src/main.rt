//! Measures the speed of the libraries: `hipe_bench MEASURE WORDS..` does one thing as often as it is told, and prints
//! what came of it. `hipe_bench all` does a little of each.
#![tactic(auto)]

mod blocks;
mod checking;
mod gates;
mod images;
mod lists;
mod memory;
mod reading;
mod runs;
mod steps;

use anyhow::{Context, Result, bail};
use hipe_base::Files;
use hipe_outside::RealFiles;
use std::alloc::Global;
use std::env;
use std::string::String;

fn main(rt: HostRuntime) -> Result<()> {
    let words = words(&rt)?;
    let mut files = RealFiles::new(rt);
    let line = measured(rt.alloc(), &mut files, words.as_slice())?;
    println!(rt; "{line}")?;
    Ok(())
}

/// The words after the program's name.
fn words(rt: &HostRuntime) -> Result<Vec<String>> {
    let mut args = env::args(rt)?;
    let _program = args.next();
    let mut words = Vec::new(rt.alloc());
    for word in args {
        words.push(word)?;
    }
    Ok(words)
}

fn word(words: &[String], place: usize) -> Result<&str> {
    let word = words.get(place).context("another word is wanted")?;
    Ok(word.as_str())
}

fn number(words: &[String], place: usize) -> Result<u32> {
    let number = word(words, place)?
        .parse::<u32>()
        .context("a number is wanted")?;
    Ok(number)
}

/// What one measure prints, which its first word names.
fn measured<F: Files>(alloc: Global, files: &mut F, words: &[String]) -> Result<String> {
    match word(words, 0)? {
        "all" => all(alloc, files),
        "read_file" => reading::files_read(alloc, files, word(words, 1)?, number(words, 2)?),
        "read_text" => reading::forms_read(alloc, files, word(words, 1)?, number(words, 2)?),
        "read_module" => reading::modules_read(alloc, files, word(words, 1)?, number(words, 2)?),
        "check_module" => checking::modules_checked(
            alloc,
            files,
            word(words, 1)?,
            number(words, 2)?,
        ),
        "read_image" => images::images_read(alloc, number(words, 1)?, number(words, 2)?),
        "machine_run" => images::steps_run(alloc, number(words, 1)?),
        "sparc_step" => steps::steps_done(alloc, number(words, 1)?),
        "word_block" => {
            blocks::words_moved(
                alloc,
                number(words, 1)?,
                number(words, 2)?,
                number(words, 3)?,
            )
        }
        "words_of_terms" => {
            lists::lists_walked(alloc, word(words, 1)?, number(words, 2)?, number(words, 3)?)
        }
        "built_ins" => {
            gates::gates_passed(alloc, word(words, 1)?, number(words, 2)?, number(words, 3)?)
        }
        "run_command" => runs::lists_returned(alloc, number(words, 1)?, number(words, 2)?),
        _ => bail!("no measure has this name"),
    }
}

fn add(lines: &mut String, line: Result<String>) -> Result<()> {
    if lines.len() > 0 {
        lines.push('\n')?;
    }
    lines.push_str(line?.as_str())?;
    Ok(())
}

/// A little of each measure.
fn all<F: Files>(alloc: Global, files: &mut F) -> Result<String> {
    let mut lines = String::new(alloc);
    add(&mut lines, reading::files_read(alloc, files, "e.S", 3))?;
    add(&mut lines, reading::forms_read(alloc, files, "fact.S", 3))?;
    add(&mut lines, reading::modules_read(alloc, files, "fact.S", 3))?;
    add(
        &mut lines,
        checking::modules_checked(alloc, files, "shop.S", 3),
    )?;
    add(&mut lines, images::images_read(alloc, 1000, 2))?;
    add(&mut lines, images::steps_run(alloc, 4543))?;
    add(&mut lines, steps::steps_done(alloc, 100_000))?;
    add(&mut lines, blocks::words_moved(alloc, 1024, 2000, 1000))?;
    add_lists(alloc, &mut lines)?;
    add(&mut lines, runs::lists_returned(alloc, 1000, 3))?;
    Ok(lines)
}

/// The measures of lists.
fn add_lists(alloc: Global, lines: &mut String) -> Result<()> {
    for measure in ["lay", "compare", "compare_same", "print"] {
        add(lines, lists::lists_walked(alloc, measure, 1000, 2))?;
    }
    for measure in ["sum", "less", "append", "reverse"] {
        add(lines, gates::gates_passed(alloc, measure, 1000, 3))?;
    }
    Ok(())
}
