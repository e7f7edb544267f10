// The writer, as definitions: what `expand` answers to every job, and leaves, is in specs/, with the demands and their proofs.
#![tactic(auto)]

// The choice in the writer's call: what becomes of a binder's variable.
#[derive(Clone, Copy)]
pub enum Names {
    // It is kept where exactly one term record of the job binds it and no let lists it.
    Keep,
    // Every binder gets a new variable.
    RenameAll,
}
