// The walks of a call's lines in round one, before anything is laid, and whether round two can join any of them.
#![tactic(auto)]

ghost use Rattle.rules.specs.Lent.{lines_of};
ghost use Rattle.build_walks.specs.Walking.{LinesWalkable, LinesWalked};

use chain_meeting::MEETING;
use rules::{LentLines, Settings};

// How many lines went in, how many walks there are, and whether cells leave them apart.
#[derive(Clone, Copy)]
pub struct Walked {
    pub lines: usize,
    pub number: usize,
    pub apart: bool,
}

// The walks of the plain lines of a call, in round one's part of the workspace; the ends of the walks are grouped where round two has its groups.
pub fn walk_lines(
    w: &mut [u64],
    n: usize,
    lines: &LentLines,
    width: usize,
    settings: Settings,
) -> Walked
    requires { LinesWalkable width n (lines_of lines.now) settings w.old }
    ensures { LinesWalked width n (lines_of lines.now) settings
        w.new result.lines result.number result.apart }
{
    let taken = build_lines::take_lines(w, n, lines.counts, lines.kinds);
    let number = chain_round::walk_round(
        w,
        n,
        taken,
        None,
        settings,
        width,
        lines.groups,
        lines.coordinates,
        lines.coordinates,
    );
    chain_meeting::meet(
        w,
        n,
        taken,
        number,
        settings,
        width,
        lines.groups,
        lines.coordinates,
    );
    let at = n * MEETING;
    let apart = chain_apart::apart(&w[at..], number * 2, settings.switch == 1);
    Walked {
        lines: taken,
        number,
        apart,
    }
}
