// The boxes of a table's chains, and above them, level by level, those of pairs.
#![tactic(auto)]

ghost use Rattle.std.specs.Prelude.{◌≡◌};
ghost use Rattle.rules.specs.Boxes.{stacked, box_numbers};
ghost use Rattle.rules.specs.Calls.{written};
ghost use Rattle.build_boxes.specs.Boxing.{Boxable, chain_boxes};

// The boxes of the table's first k chains, and above them, level by level, those of pairs, up to one for all.
pub fn lay_boxes<'a>(
    input: &'a [u64],
    merged: &'a [u64],
    table: &[u32],
    width: usize,
    k: usize,
    boxes: &mut [u64],
)
    requires { Boxable width input.now merged.now table.now k boxes.old }
    ensures { boxes.new
        ≡ written (box_numbers (stacked (chain_boxes width input.now merged.now table.now k))) boxes.old }
{
    for j in 0..k {
        let e = box_levels::extent_of(
            build_question::known_part(input, merged, table, width, j),
            width,
        );
        box_levels::put(boxes, j, e);
    }
    box_levels::raise_all(boxes, k);
}
