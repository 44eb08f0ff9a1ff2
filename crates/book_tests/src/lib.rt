// Books at their edges, with damaged blocks, and behind a join.
#![tactic(auto)]

#[cfg(test)]
mod damage;
#[cfg(test)]
mod edges;
#[cfg(test)]
mod joint;
#[cfg(test)]
mod tables;
