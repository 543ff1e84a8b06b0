//! What the program tells about itself.

/// What `--help` prints, on one screen: the command line, the commands with their words, and a
/// short form of each word.
pub const HELP: &str = "\
usage: advfs mkfdmn [-3] [-o] IMAGE   makes an empty domain; -o: over anything
       advfs run [-r] SCRIPT IMAGE..  runs a script over it; -r: writes nothing
       advfs verify IMAGE..           prints each fault: volume, page and code
       advfs try PAGES < SCRIPT       runs a script over a new domain in memory
       advfs put [--owner UID:GID] IMAGE.. NAMED < FILE
       advfs get IMAGE.. NAMED > FILE            advfs list [-m] IMAGE.. P
       advfs showfdmn [-m] IMAGE..               advfs showfsets [-m] IMAGE..
       advfs --help, advfs --version

A script has client N, 1 to 8, before each client's commands, a line each:
  mkfset FS                        create NAMED UID GID  list P
  rmfset FS                        mkdir NAMED UID GID   stat P
  showfsets                        write P OFFSET BYTES  links P
  setquota FS WHO ID FILES BLOCKS  read P OFFSET COUNT   showfile P
  showquota FS WHO ID              truncate P SIZE       fsync P
  showfdmn                         rename NAMED PATH     unlink NAMED
  sync                             link NAMED PATH       rmdir NAMED
  cancel                           chfile -L on P        chfile -L off P
P is FS:/ or NAMED, which is FS:/NAME/NAME; a PATH is /NAME/NAME. In a NAME a
space is %20. WHO is user, group or fileset, and ID is 0 after fileset. BYTES
are \"a word\", or 61.62.00x3: two hexadecimal digits for each, and x with the
number of times.

docs/SCRIPT.md has the full language, with each reply and each refusal.
";

/// What `--version` prints.
pub const VERSION: &str = "advfs 0.1.0\n";
