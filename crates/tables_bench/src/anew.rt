//! The decisions of all sequences, by the rules and each time anew.
use crate::event::count_of;
use hive_model::{Decision, Job, MOST_DEPTH, Member, Outcome, Sequence};

/// Settles the algorithms in that order as accepted, with the decision of every sequence after each, and gives how
/// many decisions were made.
pub(crate) fn evaluate(job: &Job, outcomes: &mut Vec<Option<Outcome>>, order: &[u16]) -> u64 {
    let mut decided = 0;
    outcomes.fill(None);
    for number in order {
        let place = usize::from(*number);
        if place < outcomes.len() {
            outcomes[place] = Some(Outcome::Accepted);
        }
        decided = count_decided(job, outcomes.as_slice(), decided);
    }
    decided
}

fn count_decided(job: &Job, outcomes: &[Option<Outcome>], before: u64) -> u64 {
    let mut decided = before;
    for number in 0..count_of(job.sequences().len()) {
        let decision = decide(job.sequences(), outcomes, Member::Seq(number), MOST_DEPTH);
        if !is_undecided(decision) {
            decided = decided.saturating_add(1);
        }
    }
    decided
}

// The decision of a member, over at most `depth` sequences one below the other.
fn decide(
    sequences: &[Sequence],
    outcomes: &[Option<Outcome>],
    member: Member,
    depth: u8,
) -> Decision {
    match member {
        Member::Alg(leaf) => leaf_decision(outcomes, leaf),
        Member::Seq(below) => {
            if depth == 0 {
                return Decision::Undecided;
            }
            let Some(sequence) = sequences.get(usize::from(below)) else {
                return Decision::Undecided;
            };
            let mut value = neutral(sequence.mode_or);
            for member in sequence.members() {
                let said = decide(sequences, outcomes, *member, depth - 1);
                value = both(sequence, value, said);
                if sequence.sequential
                    && sequence.short_circuit
                    && said != neutral(sequence.mode_or)
                {
                    break;
                }
            }
            flagged(sequence, value)
        }
    }
}

fn leaf_decision(outcomes: &[Option<Outcome>], leaf: u16) -> Decision {
    match outcomes.get(usize::from(leaf)) {
        Some(Some(Outcome::Accepted)) => Decision::True,
        Some(Some(Outcome::Rejected)) => Decision::False,
        Some(Some(Outcome::Failed(_, _))) => Decision::Undecided,
        Some(None) => Decision::Undecided,
        None => Decision::Undecided,
    }
}

fn is_undecided(decision: Decision) -> bool {
    matches!(decision, Decision::Undecided)
}

fn neutral(mode_or: bool) -> Decision {
    if mode_or {
        Decision::False
    } else {
        Decision::True
    }
}

// What members say so far, and one more. In a strict node one that is undecided decides, else one that fixes.
fn both(sequence: &Sequence, before: Decision, said: Decision) -> Decision {
    let idle = neutral(sequence.mode_or);
    if before == idle || said == idle {
        return if before == idle { said } else { before };
    }
    if is_undecided(before) == sequence.short_circuit {
        said
    } else {
        before
    }
}

fn flagged(sequence: &Sequence, value: Decision) -> Decision {
    match (value, sequence.invert, sequence.ignore_filter) {
        (Decision::Undecided, _, _) => Decision::Undecided,
        (_, _, true) => Decision::True,
        (Decision::True, true, false) => Decision::False,
        (Decision::False, true, false) => Decision::True,
        (plain, false, false) => plain,
    }
}
