//! What a worker's thread does.
use ls_desk::DeskFault;
use ls_workers::{Board, Crew, Gate, Stop, WorkerSeat, work};
use std::alloc::Global;
use std::sync::Wait;

/// Works through a seat until there is nothing more. A fault that ends the work early ends the run for all, and comes with the seat.
pub fn work_on<C: Crew, R: Wait, G: Gate>(
    rt: &R,
    alloc: Global,
    board: &Board<C>,
    seat: WorkerSeat<C>,
    gate: &G,
) -> (WorkerSeat<C>, Option<DeskFault>) {
    let (seat, fault) = work(rt, alloc, board, seat, gate);
    if fault.is_some() {
        board.stop(rt, Stop::Now);
    }
    (seat, fault)
}
