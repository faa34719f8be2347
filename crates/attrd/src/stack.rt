//! The stack of the deepest question, taken at the start, so that no question can be refused it.

/// How many levels are taken: with these a third more than the deepest question takes by measurement, 1,530 KiB with `--cut-off`.
const LEVELS: u8 = 250;

/// How many bytes a level takes at least.
const LEVEL: usize = 8_192;

/// Takes the stack that the deepest question takes, and writes to all of it: whether that can be read again. The process has it
/// from then on. Where the system refuses it the process ends here, by the system's signal.
pub fn take_stack() -> bool {
    read_back(LEVELS, &[]) != 0
}

/// Writes so many levels, and reads a byte of each but the last again, and one of that above them: all of these as one.
fn read_back(levels: u8, above: &[u8]) -> u8 {
    if levels == 0 {
        return 0;
    }
    let level = [levels; LEVEL];
    // what is read behind the call, at a place that isn't constant, can't be left out
    let below = read_back(levels - 1, &level);
    match above.get(usize::from(levels)) {
        Some(byte) => below ^ *byte,
        None => below,
    }
}
