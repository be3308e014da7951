// Looks at the board while a worker has the turn.
ghost use Rattle.std.specs.Prelude.{◌≡◌};
ghost use Rattle.board.specs.Builds.{standing_at};
ghost use Rattle.run_law.specs.Absent.{IsFirstAbsent};

use board::Board;
use mvn_outside::Shelf;

/// The place of the first of these files, from a place on, that isn't there by now. No event; takes no memory; costs a look at each file
/// up to it. Project rule.
pub fn first_absent<S: Shelf>(board: &Board<S>, files: &[u32], from: usize) -> Option<usize>
    ensures { IsFirstAbsent (standing_at board.now).there files.now from result }
{
    for at in from..files.len() {
        if !board.has(files[at]) {
            return Some(at);
        }
    }
    None
}
