// Tests of the parts on which machine and driver stand: of types and layouts, of the edges where bytes come in and go out, of the bytes
// of version array pages, of the driver's tables, and of logs and seals against other programs. What the instructions make of these
// parts is tested of the machine.
#![tactic(auto)]

#[cfg(test)]
mod edges;
#[cfg(test)]
mod logs;
#[cfg(test)]
mod pages;
#[cfg(test)]
mod same;
#[cfg(test)]
mod seals;
#[cfg(test)]
mod tables;
#[cfg(test)]
mod types;
