//! The texts that help prints after the commands and options: facts that don't belong to one argument, and an
//! example. A user who has only the program has no folder of the project, so the texts name its pages, but no paths.

/// The help of `--progress`.
pub(crate) static PROGRESS: &str =
    "Show progress in one line on standard error, at most once a second;
it is written over itself and wiped before the end";

/// The text after the help of the program.
pub(crate) static PROGRAM_HELP: &str = "Exit status:
  0  success
  1  refused; one line on standard error names the error
  2  usage error
  3  check found something wrong or missing

The manual page (man orcm) says more about each command. The page FAULTS of the project explains
each error.

Example: joins the files of a day, and keeps the result if it is right
  orcm merge day.tmp hours/*.orc && orcm check day.tmp && mv day.tmp day.orc";

/// The text after the help of `ints`.
pub(crate) static INTS_HELP: &str = "All numbers are printed on one line, with a space between two.

Example: prints 23713 43806 57005 48879
  orcm ints --rle 2 --sign u 5e035ca1ab1edeadbeef";

/// The text after the help of `rows`.
pub(crate) static ROWS_HELP: &str =
    "An object has all fields of its struct, in the order of the names' bytes. A map is an array of its
pairs, each an array of a key and its value. Binary values are hexadecimal digits. A date is a
string such as \"2024-02-29\", or the number of days since 1970-01-01 if its year isn't 0001 to 9999.

A stripe is printed once all of it is known to be readable. With --from 2:0, printing starts with
the first row group of the third stripe and goes on to the end of the file. The stripes before
aren't read. The file must have a row index.

Example: prints the rows of the third stripe and all after it
  orcm rows --from 2:0 sales.orc";

/// The text after the help of `show`.
pub(crate) static SHOW_HELP: &str =
    "There is one line each for the schema, the version, the writer, the number of rows and the stride.
Then comes one line for each entry of user metadata, each stripe and each column. The line of a
column has its statistics for the whole file. Column 0 is the row itself. Only the end of the file
is read.

Example: prints the number of rows
  orcm show sales.orc | sed -n 's/^rows //p'";

/// The text after the help of `check`.
pub(crate) static CHECK_HELP: &str =
    "One line is printed for each finding: its name, then the numbers of the stripe, the column and the
row group, counted from 0. Column 0 is the row itself.
  StripeStatistic S C    the statistic of a stripe is missing or isn't that of its rows
  IndexEntries S C       a row index is missing, can't be read or has the wrong number of entries
  IndexStatistic S C G   the statistic of a row group is missing or isn't that of its rows
  IndexPosition S C G    an entry doesn't lead to the first value of its row group
  FileStatistic C        the statistic of the file is missing or isn't that of its rows

The exit status is 3 if there is a finding and 0 if there is none.

Example: says whether all is right
  orcm check sales.orc && echo right";

/// The text after the help of `write`.
pub(crate) static WRITE_HELP: &str =
    "A schema is a struct of named fields. The kinds are boolean, tinyint, smallint, int, bigint, date,
string, binary, array<KIND>, map<KIND,KIND> and struct<NAME:KIND,..>.
In JSON, a map is an array of its pairs, each an array of a key and its value.

--rle 2 (Hive 0.12) mostly makes smaller files. --rle 1 is for old readers.
--stride 10000 is what most writers use. With a row index, a reader can start inside a stripe and
skip row groups by their statistics. Each entry costs some twenty bytes per column.
--stripe-rows 100000 is a good start. A stripe's rows are held in memory until it is written.

After an error, the new OUT may hold a part of the file. Delete it before the next try. But after
file 15 WriteFailed look first: OUT may be a file that was there before, which is as it was.

Example: writes a file of rows such as {\"city\":\"Oslo\",\"sold\":[1990,450]}
  orcm write --schema 'struct<city:string,sold:array<bigint>>' --rle 2 --stride 10000 \\
      --stripe-rows 100000 sales.json sales.orc";

/// The text after the help of `merge`.
pub(crate) static MERGE_HELP: &str =
    "The inputs must have the same schema, version, writer, stride and other footer fields, and the
statistics of each stripe. No two may give one key of the user metadata different values. All inputs
are tested before a byte is written. An error names an input by its number, counted from 0, except
one that can't be opened, which isn't named.

No row is read: check the result to find damaged stripes.

After an error, the new OUT may hold a part of the file. Delete it before the next try. But after
file 15 WriteFailed look first: OUT may be a file that was there before, which is as it was.

Example: joins the files of a day, and keeps the result if it is right
  orcm merge day.tmp hours/*.orc && orcm check day.tmp && mv day.tmp day.orc";
