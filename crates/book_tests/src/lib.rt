//! The book's calls run on examples: the worked feed, the edge of every refusal, and several kinds of pieces.

#![tactic(auto)]

#[cfg(test)]
mod calls;
#[cfg(test)]
mod edges;
#[cfg(test)]
mod kinds;
#[cfg(test)]
mod panels;
#[cfg(test)]
mod settings;
#[cfg(test)]
mod worked;
