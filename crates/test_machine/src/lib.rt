// Tests of the machine, and through it of each instruction. They play rows, which are constants, through one loop: a further test or row
// costs the check little.
#![tactic(auto)]

#[cfg(test)]
mod machines;
