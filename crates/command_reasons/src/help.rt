//! What `roundc why --help` prints.

/// How the command is used.
pub(crate) const HELP: &str = "\
Says why a command is refused, and where, or why a run came out as it did

Usage: roundc why COMMAND ..

COMMAND .. are the words of any other command, as `check my.rounds` or
`run @gather:2 --schedule my.schedule`. It's carried out, but it writes no file, and of `threads`
the setup is read and no thread is started.

  refused       the file, the line and the column (FILE:LINE:COLUMN), the line itself with ^ under
                the part that is wrong, and what could stand there or what's wrong with it
  run           after each row of the report that omits messages, what became of each copy; after
                the report the releases, drops and copies that did nothing, 100 at most
  --decided     of run and rounds: the two rows that decided differently, or the nodes that took a
                decision back
  judge         the first step that breaks lockstep, the first receive that comes before a message
                is released whose bound is over, and why no round is clear
  check         what is proved of the program for every number of nodes, if it's known

Of run and judge this is for people: --format makes no difference. The status is 0 if it could be
told, and else that of the command.
";
