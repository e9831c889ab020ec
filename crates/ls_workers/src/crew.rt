//! The workers' seats: how they are made, and what closing a board asks of them.
ghost use Rattle.std.specs.Prelude.{◌≡◌, ◌==◌, ◌<◌, ◌↔◌, IsTrue, IfOk, vec_len, sum_by, count_by};
ghost use Rattle.std.specs.List.{list_all};
ghost use Rattle.ls_workers.specs.Seats.{AreAll};

use crate::ledgers::{Ledgers, WorkerShares};
use crate::seats::{Count, WorkerSeat};
use ls_history::Front;
use std::alloc::{AllocError as Memory, Global};

/// The seats of so many workers of the board with this mark, in the order of their numbers, each with a part of the shares. Nothing is
/// counted in them. They have seen of the history what the front has.
///
/// # Errors
///
/// Where an allocation is refused.
pub fn seats_of<C: Ledgers>(
    alloc: Global,
    mark: u64,
    workers: u32,
    shares: WorkerShares<C>,
    front: &Front<C>,
) -> Result<Vec<WorkerSeat<C>>, Memory>
    requires parts { (shares.took.parts ≡ workers) × (shares.returned.parts ≡ workers) × (shares.finished.parts ≡ workers) }
    requires none { (shares.took.amount ≡ 0) × (shares.returned.amount ≡ 0) × (shares.finished.amount ≡ 0) }
    ensures all { IfOk result (λ seats. AreAll (λ seat. seat.mark) (λ seat. seat.number) mark workers seats.items) }
    ensures took { IfOk result (λ seats. sum_by (λ seat. seat.took.share.amount) seats.items ≡ 0) }
    ensures returned { IfOk result (λ seats. sum_by (λ seat. seat.returned.share.amount) seats.items ≡ 0) }
    ensures finished { IfOk result (λ seats. sum_by (λ seat. seat.finished.share.amount) seats.items ≡ 0) }
{
    let WorkerShares {
        mut took,
        mut returned,
        mut finished,
    } = shares;
    let mut seats = Vec::new(alloc);
    for number in 0..workers {
        let seat = WorkerSeat {
            mark,
            number,
            took: Count::new(took.split_off(1, 0)),
            returned: Count::new(returned.split_off(1, 0)),
            finished: Count::new(finished.split_off(1, 0)),
            front: front.again(),
        };
        seats.push(seat)?;
    }
    Ok(seats)
}

/// Whether all seats have a mark.
fn are_marked<C: Ledgers>(seats: &[WorkerSeat<C>], mark: u64) -> bool
    ensures { result ≡ list_all (λ seat. seat.mark == mark) seats.now }
{
    seats.iter().all(|seat| seat.mark == mark)
}

/// How many seats have a number.
fn count_of<C: Ledgers>(seats: &[WorkerSeat<C>], number: u32) -> usize
    ensures { result ≡ count_by (λ seat. seat.number == number) seats.now }
{
    let mut count = 0;
    for seat in seats {
        if seat.number == number {
            count += 1;
        }
    }
    count
}

/// Whether just one seat has a number.
fn is_once<C: Ledgers>(seats: &[WorkerSeat<C>], number: u32) -> bool
    ensures { IsTrue result ↔ (count_by (λ seat. seat.number == number) seats.now ≡ 1) }
{
    count_of(seats, number) == 1
}

/// Whether these are the seats of so many workers of the board with this mark, each of them once.
pub fn are_all<C: Ledgers>(seats: &[WorkerSeat<C>], mark: u64, workers: u32) -> bool
    ensures { IsTrue result ↔ AreAll (λ seat. seat.mark) (λ seat. seat.number) mark workers seats.now }
{
    if seats.len() != workers as usize || !are_marked(seats, mark) {
        return false;
    }
    for number in 0..workers {
        if !is_once(seats, number) {
            return false;
        }
    }
    true
}

/// The shares of the workers, together.
pub fn gathered<C: Ledgers>(seats: Vec<WorkerSeat<C>>) -> WorkerShares<C>
    requires { 0 < vec_len seats }
    ensures parts { (result.took.parts ≡ vec_len seats) × (result.returned.parts ≡ vec_len seats) × (result.finished.parts ≡ vec_len seats) }
    ensures took { result.took.amount ≡ sum_by (λ seat. seat.took.share.amount) seats.items }
    ensures returned { result.returned.amount ≡ sum_by (λ seat. seat.returned.share.amount) seats.items }
    ensures finished { result.finished.amount ≡ sum_by (λ seat. seat.finished.share.amount) seats.items }
{
    let mut seats = seats;
    let Some(
        WorkerSeat {
            took,
            returned,
            finished,
            ..
        },
    ) = seats.pop()
    else {
        unreachable!()
    };
    let mut took = took.share;
    let mut returned = returned.share;
    let mut finished = finished.share;
    while let Some(seat) = seats.pop() {
        let WorkerSeat {
            took: more_took,
            returned: more_returned,
            finished: more_finished,
            ..
        } = seat;
        took.merge(more_took.share);
        returned.merge(more_returned.share);
        finished.merge(more_finished.share);
    }
    WorkerShares {
        took,
        returned,
        finished,
    }
}
