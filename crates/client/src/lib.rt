// A caller that keeps the handles of a hall itself, with no session. Begin with `visiting.rt`.
#![tactic(auto)]

#[cfg(test)]
mod tests;
mod visiting;

pub use visiting::visit;
