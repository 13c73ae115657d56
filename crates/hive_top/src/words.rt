//! Reading the words of the command line (docs/FORMATS.md, "Words").
ghost use Rattle.std.specs.Prelude.{◌≡◌, ◌≤◌, ◌∷◌, IfSome, codes, take};
ghost use Rattle.std.specs.Option.{option_map};
ghost use Rattle.hive_model.specs.Same.{texts};
ghost use Rattle.text_model.specs.declared.limits.TheConstants.{MOST_EVENTS};
ghost use Rattle.hive_top.specs.Words.{IsPossible, IsWithin, bulk_of, check_of, command_of, concurrency_first, file_of as second_word, flag_first, gen_of, how_of, input_first, is_file, is_option as has_dashes, number_first, number_in, option_first, records_of_words, run_of, where_none};

use crate::commands::{
    Command, Concurrency, DEFAULT_SLOTS, DEFAULT_WORKERS, Generated, How, Input, Verb,
};
use hall_loop::MOST_WORKERS;
use hive_model::MOST_SLOTS;
use numerals::number_of;
use text_model::MOST_EVENTS;

/// What the words ask for, or `None` where they are in no written form.
#[tactic(auto, unfolding(crate::specs::Words::command_of))]
pub fn command(words: &[&str]) -> Option<Command>
    ensures is { result ≡ command_of (texts words.now) }
    ensures within { IfSome result IsWithin }
{
    match words.split_first() {
        None => None,
        Some((word, rest)) => command_named(word, rest),
    }
}

// The command of that name.
#[tactic(auto, unfolding(crate::specs::Words::command_of))]
fn command_named(word: &str, rest: &[&str]) -> Option<Command>
    ensures is { result ≡ command_of (word.now ∷ texts rest.now) }
    ensures within { IfSome result IsWithin }
{
    if word == "run" {
        run(rest)
    } else if word == "check" {
        check(rest)
    } else if word == "gen" {
        generate(rest)
    } else if word == "bulk" {
        bulk(rest)
    } else {
        None
    }
}

#[tactic(auto, unfolding(crate::specs::Words::run_of))]
fn run(words: &[&str]) -> Option<Command>
    ensures is { result ≡ run_of (texts words.now) }
    ensures within { IfSome result IsWithin }
{
    match words.split_first() {
        None => None,
        Some((file, rest)) => run_file(file, rest),
    }
}

#[tactic(auto, unfolding(crate::specs::Words::run_of))]
fn run_file(file: &str, rest: &[&str]) -> Option<Command>
    ensures is { result ≡ run_of (file.now ∷ texts rest.now) }
    ensures within { IfSome result IsWithin }
{
    if !is_file_name(file) {
        return None;
    }
    match how(rest) {
        Some(how) => Some(Command::OnFile(Verb::Run(how))),
        None => None,
    }
}

#[tactic(auto, unfolding(crate::specs::Words::check_of))]
fn check(words: &[&str]) -> Option<Command>
    ensures is { result ≡ check_of (texts words.now) }
    ensures within { IfSome result IsWithin }
{
    match words.split_first() {
        None => None,
        Some((file, rest)) => {
            if is_file_name(file) && rest.is_empty() {
                Some(Command::OnFile(Verb::Check))
            } else {
                None
            }
        }
    }
}

#[tactic(auto, unfolding(crate::specs::Words::gen_of))]
fn generate(words: &[&str]) -> Option<Command>
    ensures is { result ≡ gen_of (texts words.now) }
    ensures within { IfSome result IsWithin }
{
    match words.split_first() {
        None => None,
        Some((word, rest)) => generate_named(word, rest),
    }
}

#[tactic(auto, unfolding(crate::specs::Words::gen_of))]
fn generate_named(word: &str, rest: &[&str]) -> Option<Command>
    ensures is { result ≡ gen_of (word.now ∷ texts rest.now) }
    ensures within { IfSome result IsWithin }
{
    if word == "options" {
        if rest.is_empty() {
            Some(Command::Generate(Generated::Options))
        } else {
            None
        }
    } else if word == "records" {
        generate_records(rest)
    } else {
        None
    }
}

#[tactic(auto, unfolding(crate::specs::Words::records_of_words))]
fn generate_records(words: &[&str]) -> Option<Command>
    ensures is { result ≡ records_of_words (texts words.now) }
    ensures within { IfSome result IsWithin }
{
    let (input, rest) = input_first(words)?;
    if !rest.is_empty() {
        return None;
    }
    Some(Command::Generate(Generated::Records(input)))
}

#[tactic(auto, unfolding(crate::specs::Words::bulk_of))]
fn bulk(words: &[&str]) -> Option<Command>
    ensures is { result ≡ bulk_of (texts words.now) }
    ensures within { IfSome result IsWithin }
{
    let (input, rest) = input_first(words)?;
    let (concurrency, rest) = concurrency_first(rest)?;
    if !rest.is_empty() {
        return None;
    }
    Some(Command::Bulk(input, concurrency))
}

// START and EVENTS, and the words behind them.
#[tactic(auto, unfolding(crate::specs::Words::input_first))]
fn input_first<'a, 'b>(words: &'b [&'a str]) -> Option<(Input, &'b [&'a str])>
    ensures is { option_map (λ it. (it.0, texts it.1.now)) result ≡ input_first (texts words.now) }
    ensures few { IfSome result (λ it. it.0.events ≤ MOST_EVENTS) }
{
    let (start, rest) = words.split_first()?;
    let (events, rest) = rest.split_first()?;
    let start = number_in(0, u64::MAX, start)?;
    let events = number_in(0, u64::from(MOST_EVENTS), events)?;
    let input = Input {
        start,
        events: events as u32,
    };
    Some((input, rest))
}

// The options of a run.
#[tactic(auto, unfolding(crate::specs::Words::how_of))]
fn how(words: &[&str]) -> Option<How>
    ensures is { result ≡ how_of (texts words.now) }
    ensures within { IfSome result (λ how. IsPossible how.concurrency) }
{
    let (concurrency, rest) = concurrency_first(words)?;
    let (timeline, rest) = flag_first("--timeline", rest);
    let (brief, rest) = flag_first("--brief", rest);
    let how = How {
        concurrency,
        timeline,
        brief,
    };
    alone(how, rest)
}

// The options of a run, where no word stands behind them.
fn alone(how: How, rest: &[&str]) -> Option<How>
    ensures is { result ≡ where_none (texts rest.now) how }
    ensures same { IfSome result (λ it. it ≡ how) }
{
    if rest.is_empty() { Some(how) } else { None }
}

// The numbers of workers and of slots, and the words behind them.
#[tactic(auto, unfolding(crate::specs::Words::concurrency_first))]
fn concurrency_first<'a, 'b>(words: &'b [&'a str]) -> Option<(Concurrency, &'b [&'a str])>
    ensures is { option_map (λ it. (it.0, texts it.1.now)) result ≡ concurrency_first (texts words.now) }
    ensures within { IfSome result (λ it. IsPossible it.0) }
{
    let (workers, rest) = option_first("--workers", 0, MOST_WORKERS, DEFAULT_WORKERS, words)?;
    let (slots, rest) = option_first("--slots", 1, MOST_SLOTS, DEFAULT_SLOTS, rest)?;
    Some((Concurrency { workers, slots }, rest))
}

// The number of an option, or its default where the words don't begin with its name, and the words behind it.
#[tactic(auto, unfolding(crate::specs::Words::option_first))]
fn option_first<'a, 'b>(
    name: &str,
    low: u8,
    high: u8,
    default: u8,
    words: &'b [&'a str],
) -> Option<(u8, &'b [&'a str])>
    requires at_least { low ≤ default }
    requires at_most { default ≤ high }
    ensures is { option_map (λ it. (it.0, texts it.1.now)) result
        ≡ option_first name.now low high default (texts words.now) }
    ensures within { IfSome result (λ it. (low ≤ it.0) × (it.0 ≤ high)) }
{
    match words.split_first() {
        None => Some((default, words)),
        Some((word, rest)) => {
            if *word == name {
                number_first(low, high, rest)
            } else {
                Some((default, words))
            }
        }
    }
}

// The number that stands first, and the words behind it.
fn number_first<'a, 'b>(low: u8, high: u8, words: &'b [&'a str]) -> Option<(u8, &'b [&'a str])>
    ensures is { option_map (λ it. (it.0, texts it.1.now)) result ≡ number_first low high (texts words.now) }
    ensures within { IfSome result (λ it. (low ≤ it.0) × (it.0 ≤ high)) }
{
    match words.split_first() {
        None => None,
        Some((word, rest)) => match number_in(u64::from(low), u64::from(high), word) {
            Some(number) => Some((number as u8, rest)),
            None => None,
        },
    }
}

// Whether the word of that name stands first, and the words behind it.
#[tactic(auto, unfolding(crate::specs::Words::flag_first))]
fn flag_first<'a, 'b>(name: &str, words: &'b [&'a str]) -> (bool, &'b [&'a str])
    ensures { (result.0, texts result.1.now) ≡ flag_first name.now (texts words.now) }
{
    match words.split_first() {
        None => (false, words),
        Some((word, rest)) => {
            if *word == name {
                (true, rest)
            } else {
                (false, words)
            }
        }
    }
}

// A number from the first bound to the second.
#[tactic(auto, unfolding(crate::specs::Words::number_in))]
fn number_in(low: u64, high: u64, word: &str) -> Option<u64>
    ensures is { result ≡ number_in low high word.now }
    ensures within { IfSome result (λ n. (low ≤ n) × (n ≤ high)) }
{
    match number_of(word.as_bytes()) {
        Some(number) => {
            if low <= number && number <= high {
                Some(number)
            } else {
                None
            }
        }
        None => None,
    }
}

/// FILE, where a command has one: the second word.
#[tactic(auto, unfolding(crate::specs::Words::file_of))]
pub fn file_of<'a>(words: &[&'a str]) -> &'a str
    ensures { result.now ≡ second_word (texts words.now) }
{
    match words {
        [_, file, ..] => file,
        _ => "",
    }
}

fn is_file_name(word: &str) -> bool
    ensures { result ≡ is_file word.now }
{
    !word.is_empty() && !is_option(word.as_bytes())
}

fn is_option(word: &[u8]) -> bool
    ensures { result ≡ has_dashes word.now }
{
    first_two(word) == b"--".as_slice()
}

fn first_two(word: &[u8]) -> &[u8]
    ensures { result.now ≡ take 2 word.now }
{
    if word.len() < 2 {
        return word;
    }
    let (front, _) = word.split_at(2);
    front
}
