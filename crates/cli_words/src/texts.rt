//! What the program says to people beside its answers: lower case, a line each, no full stop at an end of a line.

/// What `--help` prints.
pub const HELP: &[u8] = b"\
cryptree keeps shared folders in one store file, on a disk that nobody has to trust

  cryptree STORE RANDOM make        make a store in STORE, a missing or empty file, and print its owner's key
  cryptree STORE RANDOM run         apply the commands of standard input, one a line behind the owner's line, and answer each:
                                    holder, mkdir PATH, write PATH HEX, rm PATH, rename PATH NAME, move PATH FOLDER,
                                    grant N PATH or revoke N PATH, PATH being a folder with all below it, or a file, and
                                    replace N, which gives those who share holder N's key a new one
  cryptree STORE RANDOM serve       take turns with readers: answer the lines of run, and between them those of readers' sessions:
                                    session N HEX64 begins one with holder N's key, and pins the batches that are there,
                                    step S reads a batch more in session S, pin S pins anew, and show S prints what its key opens
  cryptree STORE RANDOM upgrade     make a store of version 1, which run refuses, one of version 2, in which what leaves a folder is
                                    closed at once; the owner's line is read from standard input, and readers need nothing new
  cryptree STORE RANDOM list        print what a key opens; the key's line is read from standard input: the owner's, as make
                                    prints it, or a holder's, as run answers holder
  cryptree STORE RANDOM open PATH   print the one line of it that has this path
  cryptree STORE RANDOM audit       print every name and file that a key leads to, old ones too, with the batch that wrote it
  cryptree STORE RANDOM list HEAD   the same as list, unless the store doesn't go on from this head; open PATH, audit, run and upgrade
                                    take one as their last word too; run and upgrade then print the last head behind their replies
  cryptree STORE RANDOM gen N COUNT make a store as make does, apply the script of the number N to it, with COUNT lines behind its opening,
                                    and print its owner's key and its figures: the same script for everybody, to measure with
  cryptree STORE RANDOM head        print the head of the store's log, N:HEX, which needs no key: keep it, and you notice where an
                                    older store is put back
  cryptree STORE RANDOM prove M     print what shows that the log goes on from its first M batches
  cryptree STORE RANDOM check OLD NEW
                                    test such a proof, read from standard input, between two heads; STORE isn't read
  cryptree --help                   print this text
  cryptree --version                print the version

RANDOM is the system's source, /dev/urandom: an ordinary file is read from its beginning at each start, so the first holder would get
the owner's key; - stands for none
the owner's key opens the whole store: keep it secret, for nothing can bring it back
one writer at a time: two at once destroy the store for good; flock keeps others out
never write on an older copy of a store: the same numbers would seal other texts, and whoever has both copies can read these;
run HEAD and upgrade HEAD write on none
a holder can't check the owner's tags: whoever writes the disk can hide things from holders, though never show what wasn't written

exit status: 0 done, 2 usage, 3 bad line of input, 4 read fault, 5 write fault, 6 disk fault, 7 random fault,
             8 random too short, 9 not a store, 10 damaged, 11 wrong key, 12 tampered, 13 out of memory,
             14 the store's file isn't empty, 15 no such holder, 16 nothing that the key opens has the path,
             17 the store is of version 1: upgrade it before run, 18 it is of version 2 already,
             19 behind: an older store was put back, or another copy was read; ask for the newest copy, and write on neither,
             20 forked: somebody wrote another history than the one that the head is of,
             21 bad proof: between these two heads somebody wrote another history
more: README.md, and docs/FORMAT.md for every byte of a store
";

/// What `--version` prints.
pub const VERSION: &[u8] = b"cryptree 0.1.0\n";
