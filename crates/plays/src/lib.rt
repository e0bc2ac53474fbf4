// Run scripts: one release of a script. What a script stands for and how its play ends is in specs/, the theorems are in proofs/.
#![tactic(auto)]

// One release: its task by number, its tick, the work of the job, and the length of the stretch that each unlocked pick of the job starts.
#[derive(Clone, Copy, Debug, Default, PartialEq, Eq)]
pub struct Entry {
    pub task: u32,
    pub tick: u32,
    pub work: u32,
    pub lock: u32,
}
