//! Every operation of a slot on examples worked by hand, and the edges of a stack.
#![tactic(auto)]

#[cfg(test)]
mod combined;
#[cfg(test)]
mod copied;
#[cfg(test)]
mod edges;
#[cfg(test)]
mod latched;
#[cfg(test)]
mod moved;
#[cfg(test)]
mod rows;
#[cfg(test)]
mod topped;
