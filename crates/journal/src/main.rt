// Reads a journal from standard input as it comes, and prints a line for each record and a last line.
#![tactic(auto)]

mod input;
mod output;
mod player;

use crate::output::flush;
use crate::player::Player;

fn main(rt: HostRuntime) {
    let mut input = rt.stdin();
    let mut output = rt.stdout();
    let mut player = Player::new();
    let _ = player.play(&mut input, &mut output);
    let _ = flush(&mut output, &mut player.lines);
}
