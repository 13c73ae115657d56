//! Slots with the stores of events.
//!
//! A row is the number of slots, the number of handles, `|` and calls with `;` between: `take` gives the slot that an
//! empty store went into, or `full` and the store; `any` is the same where more slots are empty than one, and doesn't
//! say which; `put SLOT HANDLE NUMBER` gives the handle where the place was free; `get SLOT
//! HANDLE` gives what is there; `recycle SLOT` gives the store that comes out.
ghost use Rattle.std.specs.Prelude.{◌≡◌, ◌<◌, ◌≤◌, true, IfOk, None, length, replicate};
ghost use Rattle.hive_model.specs.declared.limits.TheConstants.{MOST_SLOTS};
ghost use Rattle.whiteboard.specs.Slots.{IsTaken, IsFreePlace};
ghost use Rattle.parts_rows.specs.Taken.{IsBoardOf, taken_in};

use crate::words::{byte, push_call, short, told, word};
use hive_model::{MOST_SLOTS, Product, Store};
use std::alloc::{AllocError, Global};
use std::sync::Arc;
use whiteboard::Whiteboard;

/// What a row comes to.
pub(crate) fn slots_text(alloc: Global, rest: &str) -> Result<String, AllocError> {
    let (sizes, calls) = rest.split_once('|').unwrap_or((rest, ""));
    let words: Vec<&str> = sizes.split_whitespace().collect(alloc)?;
    let slots = byte(words.as_slice(), 0);
    let handles = short(words.as_slice(), 1);
    if slots == 0 || slots > MOST_SLOTS {
        return told(alloc, "no board");
    }
    calls_text(alloc, slots, handles, calls)
}

fn calls_text(alloc: Global, slots: u8, handles: u16, calls: &str) -> Result<String, AllocError>
    requires some { 1 ≤ slots }
    requires few { slots ≤ MOST_SLOTS }
{
    let mut board = Whiteboard::new(alloc, slots, handles)?;
    let mut taken = none_taken(alloc, &board, slots)?;
    let mut all = String::new(alloc);
    for call in calls.split(';') {
        let words: Vec<&str> = call.split_whitespace().collect(alloc)?;
        let text = answer(alloc, handles, &mut board, &mut taken, words.as_slice())?;
        push_call(&mut all, text.as_str())?;
    }
    Ok(all)
}

#[tactic(auto, using(crate::proofs::Boards::none_taken))]
fn none_taken(alloc: Global, board: &Whiteboard, slots: u8) -> Result<Vec<bool>, AllocError>
    requires { board.now.slots ≡ replicate slots None }
    ensures { IfOk result (λ it. it.items ≡ taken_in board.now) }
{
    vec![in alloc; false; usize::from(slots)]
}

fn answer(
    alloc: Global,
    handles: u16,
    board: &mut Whiteboard,
    taken: &mut Vec<bool>,
    words: &[&str],
) -> Result<String, AllocError>
    requires { IsBoardOf handles board.old taken.old.items }
    ensures { IsBoardOf handles board.new taken.new.items }
{
    let slot = byte(words, 1);
    if words.len() == 1 {
        return take(alloc, handles, board, taken, words);
    }
    if !is_taken(handles, board, taken.as_slice(), slot) {
        return told(alloc, "not taken");
    }
    match word(words, 0) {
        "put" => put(alloc, board, slot, words),
        "get" => get(alloc, board, slot, short(words, 2)),
        "recycle" => recycle(alloc, handles, board, taken, slot),
        _ => told(alloc, "no call"),
    }
}

fn is_taken(handles: u16, board: &Whiteboard, taken: &[bool], slot: u8) -> bool
    requires { IsBoardOf handles board.now taken.now }
    ensures { result ≡ true → IsTaken board.now slot }
{
    match taken.get(usize::from(slot)) {
        Some(taken) => *taken,
        None => false,
    }
}

fn take(
    alloc: Global,
    handles: u16,
    board: &mut Whiteboard,
    taken: &mut Vec<bool>,
    words: &[&str],
) -> Result<String, AllocError>
    requires { IsBoardOf handles board.old taken.old.items }
    ensures { IsBoardOf handles board.new taken.new.items }
{
    let room = Store::with_room(alloc, handles)?;
    match take_slot(handles, board, taken, room) {
        Ok(slot) => shown_slot(alloc, slot, word(words, 0) == "any"),
        Err(room) => format!(in alloc; "full {room:?}"),
    }
}

fn shown_slot(alloc: Global, slot: u8, any: bool) -> Result<String, AllocError> {
    if any {
        return told(alloc, "taken");
    }
    format!(in alloc; "{slot}")
}

fn take_slot(
    handles: u16,
    board: &mut Whiteboard,
    taken: &mut Vec<bool>,
    room: Store,
) -> Result<u8, Store>
    requires board { IsBoardOf handles board.old taken.old.items }
    requires empty { room ≡ replicate handles None }
    ensures { IsBoardOf handles board.new taken.new.items }
{
    match board.take_slot(room) {
        Ok(slot) => {
            taken[usize::from(slot)] = true;
            Ok(slot)
        }
        Err(room) => Err(room),
    }
}

fn put(
    alloc: Global,
    board: &mut Whiteboard,
    slot: u8,
    words: &[&str],
) -> Result<String, AllocError>
    requires { IsTaken board.old slot }
    ensures handles { board.new.handles ≡ board.old.handles }
    ensures taken { taken_in board.new ≡ taken_in board.old }
{
    let handle = short(words, 2);
    let product = product(alloc, words)?;
    if !is_free(board, slot, handle) {
        return told(alloc, "no free place");
    }
    put_product(board, slot, handle, product);
    format!(in alloc; "{handle}")
}

fn product(alloc: Global, words: &[&str]) -> Result<Arc<Product>, AllocError> {
    let number = word(words, 3).parse().unwrap_or(0);
    Ok(Arc::new(alloc, Product::Num(number))?)
}

fn put_product(board: &mut Whiteboard, slot: u8, handle: u16, product: Arc<Product>)
    requires taken { IsTaken board.old slot }
    requires free { IsFreePlace board.old slot handle }
    ensures handles { board.new.handles ≡ board.old.handles }
    ensures taken { taken_in board.new ≡ taken_in board.old }
{
    board.put(slot, handle, product);
}

fn is_free(board: &Whiteboard, slot: u8, handle: u16) -> bool
    requires { IsTaken board.now slot }
    ensures { result ≡ true → IsFreePlace board.now slot handle }
{
    let store = board.store(slot);
    usize::from(handle) < store.len() && store.get(handle).is_none()
}

fn get(alloc: Global, board: &Whiteboard, slot: u8, handle: u16) -> Result<String, AllocError>
    requires { IsTaken board.now slot }
{
    let store = board.store(slot);
    if usize::from(handle) >= store.len() {
        return told(alloc, "no place");
    }
    format!(in alloc; "{:?}", board.get(slot, handle))
}

fn recycle(
    alloc: Global,
    handles: u16,
    board: &mut Whiteboard,
    taken: &mut Vec<bool>,
    slot: u8,
) -> Result<String, AllocError>
    requires board { IsBoardOf handles board.old taken.old.items }
    requires taken { IsTaken board.old slot }
    ensures { IsBoardOf handles board.new taken.new.items }
{
    taken[usize::from(slot)] = false;
    let store = board.recycle(slot);
    format!(in alloc; "{store:?}")
}
