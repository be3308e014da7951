// The texts that the program prints of itself: its help and its version.
use mvn_outside::{DeviceFault, Sink, write_all};

const HELP: &str = "\
mvn builds Maven projects of one or of many modules (POM model 4.0.0). It is not
Apache Maven.

Usage: mvn [OPTION..] PHASE

The phase is the last one that runs, such as validate, compile, test, package,
verify or install. `mvn` reads pom.xml in the current folder and the POMs of its
modules, makes their effective models, checks them, and orders the modules. Then it
runs, module by module, the goals of all phases up to that one. With install it puts
each module's POM, and what is made of it, into the local repository. After a module
that failed only those that stand on it are skipped.

Options:
  -pl LIST        builds these modules alone, with commas between: the path of the
                  module's folder or POM, :artifact, or group:artifact
  -am, -amd       with -pl: also the modules that they stand on; that stand on them
  -rf MODULE      leaves out the modules before this one, in the order of the build
  -P LIST         profiles, with commas between: id or +id is on, -id or !id is off
  -D NAME=VALUE   a property; its value is true if =VALUE is left out
  -T NUMBER       how many workers build at once, 1 to 16 (by default 1)
  --full          the report tells each module's effective model and classpaths too
  --generated N   builds a project of N POMs (1 to 1024) made in memory, and tells in
                  four lines what came of it; no file is read or written
  -fae, -B, -ntp  as it is done anyway
  -h, --help      print this help
  -v, --version   print the version
Also --projects, --also-make, --also-make-dependents, --resume-from,
--activate-profiles, --threads, --fail-at-end, --batch-mode and
--no-transfer-progress. A value may follow a =, as in --projects=core,web.

A word that isn't known is refused: `word 1 UnknownWord`, with its number from 0.
What Maven takes and this program doesn't, and what to do instead:
  clean           remove the folder .m2/repository of the project; there is no target
  site, deploy    nothing stands for them
  PLUGIN:GOAL     bind the goal to a phase in the POM
  -o, -U, -nsu    leave them out: the remote repository is a folder, not a network
  -q, -X, -e      leave them out: the report is all that is printed
  -s FILE, -gs    leave them out: no settings are read
  -N              write -pl .
  -f FILE         change to the folder of the POM
  -T 1C           write a number
  -pl !MODULE     name the modules that are wanted; none can be excluded
  -ff, -fn        leave them out: the others are always built, as by -fae

The goals are built in and do not compile: the output of a goal is a SHA-256 digest of
its input. Don't point MVN_REPO at a repository that Maven uses. A program that
MVN_GATE names runs the goals in their place.

A file of a dependency that the local repository hasn't is copied there from the remote
one, if a goal reads it. A module fails of which such a file is in neither, or is larger
than 128 MiB in the remote one: its line in the report says `missing` and names the
file. A phase whose goals read no classpath, such as validate, needs none. The POMs of
parents, imports and dependencies are looked up in the project, in the local repository
and in the remote one.

Environment:
  MVN_REPO        the local repository (by default .m2/repository in the project)
  MVN_REMOTE      a folder that stands for a remote repository (by default .m2/remote
                  in the project); POMs and files are read from it
  MVN_GATE        a program that runs the goals, once for each (by default the
                  built-in goals)
  MVN_JDK         the version of the JDK, for profiles that ask for it
  PWD             the folder of the project, as ${basedir} has it (by default .)
  any NAME        what ${env.NAME} stands for

Exit status: 0 all modules built, 1 a module isn't built, 2 refused, 3 reading or
writing failed, 4 out of memory.

Example:
  cd examples/shop && mvn install
";

const VERSION: &str = "mvn 0.1.0 (POM model 4.0.0)\n";

/// Writes the help.
pub fn write_help<O: Sink>(sink: &mut O) -> Result<(), DeviceFault> {
    write_all(sink, HELP.as_bytes())
}

/// Writes the version.
pub fn write_version<O: Sink>(sink: &mut O) -> Result<(), DeviceFault> {
    write_all(sink, VERSION.as_bytes())
}
