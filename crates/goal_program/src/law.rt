//! Laws alone: which names of files and which requests are read as they were written.

ghost use Rattle.std.specs.Prelude.{◌≡◌, ◌⊎◌, ℕ, List, Some, None};
ghost use Rattle.mvn_base.specs.declared.gav.Gav.{Gav};
ghost use Rattle.goal_types.specs.declared.goal.GoalRequest.{GoalRequest};
ghost use Rattle.goal_types.specs.Requests.{request_text};
ghost use Rattle.mvn_base.specs.Apart.{IsFileOf};
ghost use Rattle.goal_program.specs.Names.{file_in};
ghost use Rattle.goal_program.specs.Requests.{request_in};
ghost use Rattle.goal_program.specs.Telling.{IsTold};

/// A law of the definitions: the path of each file of valid coordinates is read as its name, what is read is such a name, and it is
/// the path itself. It does nothing when it runs. Maven's repository layout.
pub fn files_are_read()
    ensures read { (gav : Gav) (name : List ℕ) → IsFileOf gav name → file_in name ≡ Some name }
    ensures named { (path name : List ℕ) → file_in path ≡ Some name →
        (gav : Gav) × IsFileOf gav name }
    ensures path { (path : List ℕ) → (file_in path ≡ None) ⊎ (file_in path ≡ Some path) }
{}

/// A law of the definitions: the bytes that are written for a request are read as that request, if its goal has the slot and the
/// classpath that it has by default, and its outputs, files and settings are as `IsTold` says. It does nothing when it runs. Project
/// format.
pub fn requests_are_read()
    ensures { (request : GoalRequest) → IsTold request →
        request_in (request_text request) ≡ Some request }
{}
