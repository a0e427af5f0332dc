// Where the received store is. There is no heap, so that it is a local; and a stack has 8 MiB where nobody raised its limit, far less than
// the store of the most cells. So a script is answered in a small room, and goes on in a large one from an accepted `fresh` on that asks
// for more cells than the small one has. That one starts over with stores of zero bytes: nothing of the old store is carried over.
use crate::call::MOST_RECEIVED_LENT;
use crate::input::Input;
use crate::out::complain;
use crate::run::End;
use crate::stack;
use engine::DATA_BYTES;
use std::io::Read;
use std::rt::Files;

// The most cells of the small room.
const SMALL_CELLS: usize = 4096;

// A byte more than its cells have. No state of so many cells takes a store of this length, nor a longer one: where a script lends more,
// this is lent, and the answer is the same.
const SMALL_ROOM: usize = SMALL_CELLS * DATA_BYTES + 1;

// The stack that the large room takes with all else: some 70 MiB, and room to spare.
const LARGE_STACK: u64 = 80 * 1024 * 1024;

type SmallStore = [u8; SMALL_ROOM];

type LargeStore = [u8; MOST_RECEIVED_LENT];

// Two for the two rooms: of one that is generic in the store's length, the check did not prove that the store it makes fits in memory.
// Each lends its store as a run of bytes: where a store is made, the checker would count its bytes one by one for that.
fn with_small_store(input: &mut Input<impl Read>, end: &mut End, received: &mut SmallStore) {
    input.answer_all(end, received);
}

fn with_large_store(input: &mut Input<impl Read>, end: &mut End, received: &mut LargeStore) {
    input.answer_all(end, received);
}

fn in_small_room(input: &mut Input<impl Read>, end: &mut End) {
    let mut received = [0u8; SMALL_ROOM];
    with_small_store(input, end, &mut received);
}

// Never compiled into its caller: there its store would be in the caller's frame, and every script would take the large stack.
#[inline(never)]
fn in_large_room(input: &mut Input<impl Read>, end: &mut End) {
    let mut received = [0u8; MOST_RECEIVED_LENT];
    with_large_store(input, end, &mut received);
}

// Answers every line. What the small room left goes on in the large one, if the stack may grow so far; where it may not, that is told, and
// nothing more is answered.
pub fn script(rt: &(impl Files + Alloc), input: &mut Input<impl Read>, end: &mut End) {
    in_small_room(input, end);
    if input.is_open() {
        if stack::may_take(rt, LARGE_STACK) {
            in_large_room(input, end);
        } else {
            complain(
                b"calls: more than 4096 cells take a stack of 80 MiB, which its limit does not allow\n",
            );
        }
    }
    end.out.flush();
}
