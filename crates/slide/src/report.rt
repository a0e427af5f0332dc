// What is told of a journey, before it and after it.
use crate::output::Output;
use crate::plan::{Plan, STALL, STALL_END};
use crate::tally::{Count, Tally};
use tiles::TILES;

pub fn heading(plan: Plan, out: &mut Output) {
    if !plan.is_stalling {
        out.say(
            "A slide of 41 by 29 tiles goes from the scanner to the server over two cables and a radio,\n",
        );
        out.say(
            "numbered from fffffe00. Each row stands here once it has been handed out, with the tick at which that was.\n\n",
        );
        return;
    }
    let cells = plan.cells;
    let buffer = plan.buffer;
    out.say(format_args!(
        "\nThe same journey for a viewer whose disk stalls: from tick {STALL} to tick {STALL_END} the server takes nothing.\n"
    ));
    out.say(format_args!(
        "Its receive table has {cells} cells, and its receive buffer {buffer} bytes.\n\n"
    ));
}

fn lines(out: &mut Output, lines: &[(Count, &'static str)]) {
    for (count, what) in lines {
        let n = count.0;
        out.say(format_args!("{n:>6}  {what}\n"));
    }
    out.say("\n");
}

fn of_links(tally: &Tally, out: &mut Output) {
    out.say("\n");
    lines(
        out,
        &[
            (tally.frames, "frames put on the links"),
            (tally.lost, "lost"),
            (tally.repeated, "repeated by a link"),
            (tally.delayed, "delayed"),
            (tally.cut_off, "cut off as cable 2 died"),
            (tally.ahead, "messages ahead of an earlier one"),
            (tally.again, "messages again after they had been passed"),
            (tally.doubted, "links doubted as a deadline passed"),
            (tally.resent, "messages resent over another link"),
            (
                tally.told,
                "times that the server told what it had consumed",
            ),
            (tally.refused, "frames refused"),
        ],
    );
}

fn of_stall(tally: &Tally, out: &mut Output) {
    lines(
        out,
        &[
            (
                tally.barred,
                "ticks that the scanner stood still with tiles left, while the server had no cell for its oldest message",
            ),
            (tally.late, "ticks that it stood still otherwise"),
            (tally.refused, "frames refused"),
            (
                tally.window,
                "of them with 12, since there was no cell for the number",
            ),
            (tally.waited, "messages waiting untaken, at the most"),
            (tally.ticks, "ticks until both packet tables were empty"),
        ],
    );
}

// Every tile is good, nothing else was handed out, the stream has ended, and both packet tables are empty.
fn is_whole(tally: &Tally, is_empty: bool) -> bool {
    tally.good.0 == u64::from(TILES)
        && tally.wrong == Count::NONE
        && tally.finished == Count(1)
        && is_empty
}

// After the journey, of which is told whether it ended with both packet tables empty.
pub fn report(plan: Plan, tally: &Tally, is_empty: bool, out: &mut Output) {
    if plan.is_stalling {
        of_stall(tally, out);
    } else {
        of_links(tally, out);
    }
    let good = tally.good.0;
    let arrived = "of 1189 tiles arrived once, in order, with their bytes";
    if is_whole(tally, is_empty) {
        out.say(format_args!("WHOLE: {good} {arrived}; both packet tables are empty.\n"));
    } else {
        out.say(format_args!("BROKEN: {good} {arrived}.\n"));
    }
}
