// Laws of planning again, over files that have grown by a build.
ghost use Rattle.std.specs.Prelude.{◌≡◌, ℕ, Contains, Result, Ok, true};
ghost use Rattle.std.specs.Prelude.{List as Items};
ghost use Rattle.mvn_base.specs.declared.gav.Gav as gavs;
ghost use Rattle.mvn_shared.specs.Files.{Files};
ghost use Rattle.build_plan.specs.Planning.{IsPlanned, IsSaid, Plans};
ghost use Rattle.build_plan.specs.declared.planning.PlanFault as faults;
ghost use Rattle.cli_words.specs.declared.command_line.CommandLine as lines;
ghost use Rattle.model_resolver.specs.Finding.{find_pom};
ghost use Rattle.model_resolver.specs.declared.resolver.ProjectPom as poms;
ghost use Rattle.model_types.specs.declared.model.Model as models;
ghost use Rattle.pom_source.specs.declared.found.Given as givens;
ghost use Rattle.module_plan.specs.declared.selected.Planned as planned;
ghost use Rattle.project_libraries.specs.Available.{available};
ghost use Rattle.call_laws.specs.Again.{planned_over};
ghost use Rattle.call_laws.specs.RerunsApart.{IsApart, is_said};
ghost use Rattle.call_laws.specs.Grown.{IsGrown, gavs_of};

/// A law: over files that have grown by a build, coordinates lead to the same POM, if the project knows the modules
/// that were built; and each artifact has the same versions, if these are modules of the project. Does nothing. Maven
/// Model Builder, "Model resolving"; POM Reference, "Dependency Version Requirement Specification".
pub fn looked_up_again()
    ensures pom { (project : Items poms.ProjectPom) (start remote files : Files)
        (built : Items gavs.Gav) → IsGrown start remote built files
        → ((gav : gavs.Gav) → Contains built gav → is_said project gav ≡ true)
        → (gav : gavs.Gav) → find_pom project files remote gav ≡ find_pom project start remote gav }
    ensures versions { (group artifact : Items ℕ) (modules : Items models.Model)
        (start remote files : Files) (built : Items gavs.Gav) → IsGrown start remote built files
        → ((gav : gavs.Gav) → Contains built gav
        → (m : models.Model) × Contains modules m × (m.gav ≡ gav))
        → available files remote modules group artifact
        ≡ available start remote modules group artifact }
{}

/// A law: planning again, over files that have grown by the build of a plan whose modules are known in their project,
/// gives that plan, but that it says anew which of its files are there; and it gives nothing else. Does nothing.
/// Guide to Working with Multiple Modules; project rule.
pub fn plans_again()
    ensures same { (tree start remote files : Files) (given : givens.Given)
        (line : lines.CommandLine)
        (p : planned.Planned) → IsPlanned tree start remote given line p
        → IsApart tree start remote given p → IsGrown start remote (gavs_of p) files
        → IsPlanned tree files remote given line (planned_over files p) }
    ensures one { (tree start remote files : Files) (given : givens.Given)
        (line : lines.CommandLine)
        (p : planned.Planned) (said : Result planned.Planned faults.PlanFault)
        → IsPlanned tree start remote given line p → IsApart tree start remote given p
        → IsGrown start remote (gavs_of p) files
        → Plans tree files remote given line said → IsSaid said → said ≡ Ok (planned_over files p) }
{}
