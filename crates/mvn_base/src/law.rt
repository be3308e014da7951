//! A law of the names of files and locks: each is of one coordinate alone.

ghost use Rattle.std.specs.Prelude.{◌≡◌, ℕ, List};
ghost use Rattle.mvn_base.specs.declared.gav.Gav.{Gav};
ghost use Rattle.mvn_base.specs.FileName.{IsValid};
ghost use Rattle.mvn_base.specs.Gav.{lock_name};
ghost use Rattle.mvn_base.specs.Apart.{IsFileOf};

/// A law of the definitions: a file's name is of one coordinate alone, and so is a lock's name; so two coordinates
/// share no file and no lock. Two files of one coordinate may share a name: classifier `a.b` with extension `c`, and
/// classifier `a` with extension `b.c`. It does nothing when it runs. Maven's repository layout; the names of locks are
/// a project rule.
pub fn one_coordinate()
    ensures file { (name : List ℕ) (one other : Gav) → IsFileOf one name → IsFileOf other name →
        one ≡ other }
    ensures lock { (one other : Gav) → IsValid one → IsValid other →
        lock_name one ≡ lock_name other → one ≡ other }
{}
