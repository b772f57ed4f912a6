//! The hash of names. Whatever names a file declares, all of them go into the hash before a name is
//! looked up, so names that are chosen to collide are hashed by another function than the one that
//! they were chosen for.

use c_tree::syntax_tree::{Declared, ForFirst, GlobalTree, Item, Named, ProcTree, StmtTree};
use std::hash::{BuildHasher, DefaultHasher, Hash, Hasher};

/// Begins each hash after the names that a file declares.
#[derive(Clone, Copy)]
pub struct NameHasher {
    begun: DefaultHasher,
}

impl BuildHasher for NameHasher {
    type Hasher = DefaultHasher;

    ghost build_hasher = { λ seed. seed.begun };

    fn build_hasher(&self) -> DefaultHasher {
        self.begun
    }
}

/// Takes in a name.
fn take(hasher: &mut DefaultHasher, named: &Named) {
    named.name.as_str().hash(hasher);
}

/// Takes in the names of a declaration.
fn take_declared(hasher: &mut DefaultHasher, trees: &[Declared]) {
    for tree in trees {
        take(hasher, &tree.named);
    }
}

/// Takes in the names that a statement declares.
#[cycle(statements)]
fn take_statement(hasher: &mut DefaultHasher, tree: &StmtTree) {
    match tree {
        StmtTree::Block(trees) => take_statements(hasher, trees),
        StmtTree::Declare(trees) => take_declared(hasher, trees),
        StmtTree::If(_, then, other) => {
            take_statement(hasher, then);
            if let Some(other) = other {
                take_statement(hasher, other);
            }
        }
        StmtTree::While(_, body) | StmtTree::DoWhile(body, _) => take_statement(hasher, body),
        StmtTree::For { first, body, .. } => {
            if let ForFirst::Declare(trees) = first {
                take_declared(hasher, trees);
            }
            take_statement(hasher, body);
        }
        StmtTree::Empty
        | StmtTree::Simple(_)
        | StmtTree::Break(_)
        | StmtTree::Continue(_)
        | StmtTree::Return(_, _) => {}
    }
}

/// Takes in the names that statements declare.
#[cycle(statements)]
fn take_statements(hasher: &mut DefaultHasher, trees: &[StmtTree]) {
    for tree in trees {
        take_statement(hasher, tree);
    }
}

/// Takes in the name of a procedure, its parameters and the names that its body declares.
fn take_procedure(hasher: &mut DefaultHasher, tree: &ProcTree) {
    take(hasher, &tree.named);
    for named in &tree.params {
        take(hasher, named);
    }
    take_statements(hasher, &tree.body);
}

/// Takes in the names of globals.
fn take_globals(hasher: &mut DefaultHasher, trees: &[GlobalTree]) {
    for tree in trees {
        take(hasher, &tree.named);
    }
}

/// The hash for the names of a file. A prototype declares none: it names a procedure.
pub fn seed_of(items: &[Item]) -> NameHasher {
    let mut begun = DefaultHasher::new();
    for item in items {
        match item {
            Item::Proto(_) => {}
            Item::Proc(tree) => take_procedure(&mut begun, tree),
            Item::Globals(trees) => take_globals(&mut begun, trees),
        }
    }
    NameHasher { begun }
}
