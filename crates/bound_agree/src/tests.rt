ghost use Rattle.std.specs.Prelude.{◌<◌, ◌≤◌};

use crate::{Board, FARTHEST_END, MOST_SERVERS, Span};
use std::alloc::{AllocError, Global};
use std::test::Fail;

// The runs of a board are these, each given by its two ends.
fn has_runs(alloc: Global, board: &Board, most_false: u32, want: &[(i64, i64)]) -> bool {
    match board.ask(alloc, most_false) {
        Ok(runs) => is_listed(runs.as_slice(), want),
        Err(_) => false,
    }
}

fn is_listed(runs: &[Span], want: &[(i64, i64)]) -> bool {
    if runs.len() != want.len() {
        return false;
    }
    runs.iter()
        .zip(want)
        .all(|(run, ends)| (run.earliest(), run.latest()) == *ends)
}

fn put(board: &mut Board, server: u32, earliest: i64, latest: i64) -> bool
    requires { (1 ≤ server) × (server ≤ 1000) }
{
    match Span::new(earliest, latest) {
        Some(span) => board.put(server, span).is_ok(),
        None => false,
    }
}

// The next of a fixed sequence of numbers, all of them below some number.
fn draw(seed: &mut u64, below: u64) -> u64
    requires { 0 < below }
    ensures { result < below }
{
    *seed = seed
        .wrapping_mul(6_364_136_223_846_793_005)
        .wrapping_add(1_442_695_040_888_963_407);
    (*seed >> 33) % below
}

fn holds(span: Option<(i64, i64)>, x: i64) -> bool {
    match span {
        Some((earliest, latest)) => earliest <= x && x <= latest,
        None => false,
    }
}

// The runs among the numbers from -9 to 29, by counting the spans at each.
fn counted(
    alloc: Global,
    spans: &[Option<(i64, i64)>; 5],
    most_false: usize,
) -> Result<Vec<(i64, i64)>, AllocError> {
    let mut runs = Vec::new(alloc);
    let count = spans.iter().filter(|span| span.is_some()).count();
    if count <= most_false {
        return Ok(runs);
    }
    let mut open = None;
    let mut last = -10;
    for x in -9..30 {
        let holders = spans.iter().filter(|span| holds(**span, x)).count();
        let passes = holders + most_false >= count;
        match open {
            Some(from) if !passes => {
                runs.push((from, last))?;
                open = None;
            }
            None if passes => open = Some(x),
            _ => {}
        }
        last = x;
    }
    Ok(runs)
}

#[test]
fn a_span_has_its_ends_in_order_within_the_limits(rt: HostRuntime) {
    let cases = [
        (0, 0, true),
        (-1, 1, true),
        (1, 0, false),
        (-FARTHEST_END, FARTHEST_END, true),
        (FARTHEST_END, FARTHEST_END, true),
        (-FARTHEST_END, -FARTHEST_END, true),
        (-FARTHEST_END - 1, 0, false),
        (0, FARTHEST_END + 1, false),
        (i64::MIN, i64::MAX, false),
    ];
    for (earliest, latest, want) in cases {
        let span = Span::new(earliest, latest);
        assert_eq!(rt; span.is_some(), want, "{earliest} {latest}");
    }
}

#[test]
fn points_lie_in_all_but_so_many_spans(rt: HostRuntime) -> Result<(), Fail> {
    let mut board = Board::new(rt.alloc())?;
    assert!(rt; put(&mut board, 1, 10, 20));
    assert!(rt; put(&mut board, 2, 15, 25));
    assert!(rt; put(&mut board, 3, 18, 30));
    assert!(rt; put(&mut board, 4, 40, 50));
    let cases: [(u32, &[(i64, i64)]); 5] = [
        (0, &[]),
        (1, &[(18, 20)]),
        (2, &[(15, 25)]),
        (3, &[(10, 30), (40, 50)]),
        (4, &[]),
    ];
    for (most_false, want) in cases {
        assert!(rt;
            has_runs(rt.alloc(), &board, most_false, want),
            "{most_false}"
        );
    }
    assert_eq!(rt; board.misses(19), 1);
    assert!(rt; board.take(4));
    assert!(rt; !board.take(4));
    assert_eq!(rt; board.len(), 3);
    assert!(rt; has_runs(rt.alloc(), &board, 0, &[(18, 20)]));
    assert_eq!(rt; board.misses(19), 0);
    assert!(rt; has_runs(rt.alloc(), &board, 3, &[]));
    Ok(())
}

#[test]
fn neighbouring_numbers_are_one_run(rt: HostRuntime) -> Result<(), Fail> {
    let mut board = Board::new(rt.alloc())?;
    assert!(rt; put(&mut board, 1, 5, 9));
    assert!(rt; put(&mut board, 1, 1, 2));
    assert!(rt; put(&mut board, 2, 3, 4));
    assert!(rt; has_runs(rt.alloc(), &board, 1, &[(1, 4)]));
    assert!(rt; put(&mut board, 2, 4, 4));
    assert!(rt; has_runs(rt.alloc(), &board, 1, &[(1, 2), (4, 4)]));
    Ok(())
}

#[test]
fn ends_may_lie_at_both_limits(rt: HostRuntime) -> Result<(), Fail> {
    let mut board = Board::new(rt.alloc())?;
    assert!(rt; put(&mut board, 1, -FARTHEST_END, FARTHEST_END));
    assert!(rt; put(&mut board, 2, -FARTHEST_END, -FARTHEST_END));
    assert!(rt; put(&mut board, MOST_SERVERS, FARTHEST_END, FARTHEST_END));
    let cases: [(u32, &[(i64, i64)]); 3] = [
        (0, &[]),
        (
            1,
            &[(-FARTHEST_END, -FARTHEST_END), (FARTHEST_END, FARTHEST_END)],
        ),
        (2, &[(-FARTHEST_END, FARTHEST_END)]),
    ];
    for (most_false, want) in cases {
        assert!(rt;
            has_runs(rt.alloc(), &board, most_false, want),
            "{most_false}"
        );
    }
    assert_eq!(rt; board.misses(i64::MIN), 3);
    assert_eq!(rt; board.misses(FARTHEST_END), 1);
    Ok(())
}

#[test]
fn each_of_1000_servers_has_a_span(rt: HostRuntime) -> Result<(), Fail> {
    let mut board = Board::new(rt.alloc())?;
    for server in 1..1_001 {
        assert!(rt; put(&mut board, server, i64::from(server), 2_000));
    }
    assert_eq!(rt; board.len(), 1_000);
    assert!(rt; has_runs(rt.alloc(), &board, 0, &[(1_000, 2_000)]));
    assert!(rt; has_runs(rt.alloc(), &board, 999, &[(1, 2_000)]));
    assert!(rt; has_runs(rt.alloc(), &board, 1_000, &[]));
    assert_eq!(rt; board.misses(500), 500);
    for server in 1..1_001 {
        assert!(rt; board.take(server));
    }
    assert_eq!(rt; board.len(), 0);
    assert!(rt; has_runs(rt.alloc(), &board, 0, &[]));
    Ok(())
}

#[test]
fn after_many_changes_the_answer_is_that_of_the_spans_as_they_are(
    rt: HostRuntime,
) -> Result<(), Fail> {
    let mut board = Board::new(rt.alloc())?;
    let mut spans = [None; 5];
    let mut seed = 1;
    for call in 0..300 {
        let place = draw(&mut seed, 5) as usize;
        let earliest = draw(&mut seed, 20) as i64 - 5;
        let latest = earliest + draw(&mut seed, 8) as i64;
        if draw(&mut seed, 4) == 0 {
            assert_eq!(rt; board.take(place as u32 + 1), spans[place].is_some());
            spans[place] = None;
        } else {
            assert!(rt; put(&mut board, place as u32 + 1, earliest, latest));
            spans[place] = Some((earliest, latest));
        }
        for most_false in 0..7 {
            let want = counted(rt.alloc(), &spans, most_false)?;
            assert!(rt;
                has_runs(rt.alloc(), &board, most_false as u32, &want),
                "{call} {most_false}"
            );
        }
    }
    Ok(())
}
