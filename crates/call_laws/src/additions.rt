// The law of what a build adds to a repository.
ghost use Rattle.mvn_shared.specs.Files.{Files};
ghost use Rattle.build_core.specs.OneThread.{one_thread};
ghost use Rattle.build_plan.specs.Planning.{IsPlanned};
ghost use Rattle.cli_words.specs.declared.command_line.CommandLine.{CommandLine};
ghost use Rattle.module_plan.specs.declared.selected.Planned.{Planned};
ghost use Rattle.pom_source.specs.declared.found.Given.{Given};
ghost use Rattle.run_law.specs.Given.{Answers, IsBetween, supply_by};
ghost use Rattle.call_laws.specs.Grown.{IsGrown, gavs_of};
ghost use Rattle.call_laws.specs.Reruns.{HasWorkers};

/// A law: all that the build of a plan adds to a repository is files that the remote repository has, and files of the
/// modules that it builds; and nothing that was there is taken away. So of any files between the start and the end of
/// the build by one hand. Does nothing. Maven's repository layout, for whose a file is; project rule for the rest.
pub fn builds_add()
    ensures { (tree start remote files : Files) (given : Given) (line : CommandLine) (p : Planned)
        (said : Answers) → HasWorkers line → IsPlanned tree start remote given line p
        → IsBetween start (one_thread p.plan (supply_by start remote said)).files files
        → IsGrown start remote (gavs_of p) files }
{}
