// Tests of texts: of jobs as read, printed and made, of entries and traces, whole and in pieces, and of the words of the command line.
#![tactic(auto)]

#[cfg(test)]
mod jobs;
#[cfg(test)]
mod makes;
#[cfg(test)]
mod prints;
#[cfg(test)]
mod same;
#[cfg(test)]
mod texts;
