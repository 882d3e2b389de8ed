//! What help says below usage and options: `-h` a page of at most 80 columns, `--help` all there is to say.

pub(crate) const PROGRAM_PAGE: &str = "\
All but run read standard input to its end, and print what they see by lines:
  mtpbank play < examples/changeover.play
The status is 0, or 1 after a fault, or 2 where the words are wrong.
`mtpbank play --help` says how, and lists each fault; so do the others.";

pub(crate) const UNITS_PAGE: &str = "\
Standard input is hexadecimal digits, two an octet, fed lowest bit first:
  echo 7edff705f8beaf1f | mtpbank units
Each line that is printed is a mark: a good unit (fisu, lssu or msu), a bad one,
or sixteen octets counted without a good one; the last line counts them.
`mtpbank units --help` says what each mark tells, and each fault.";

pub(crate) const PLAY_PAGE: &str = "\
Standard input is a script of two ends, a and b. Its first line opens them,
  set links=2 method=basic a=2 b=1 sio=80
(profile=wide behind it: numbers of 12 bits) and each other asks end E for one
thing, mostly on link L:
  offer, take, find       a user's message is handed over, taken, looked for
  emit, arrive, lose      a unit is sent, arrives at the other end, is lost
  hear                    octets of any unit are heard
  together                the link comes up, at both ends
  rise, fill              it comes up at one; before that its end sends a FISU
  down, blind             the link fails, and an order tells the other end
  noanswer                nobody answered that order
  timed                   that order never was sent, and is taken back
  restore, redeclare      streams are asked back to it, and once more
  backtimeout             nobody answered that
`mtpbank play --help` says how each line is written, what it prints, and each
fault. Begin with `mtpbank play < examples/first_message.play`. With --explain
numbers have words, `refused 5 (not up)`, and a line at fault is explained.";

pub(crate) const DECODE_PAGE: &str = "\
Standard input is the octets of a unit a line, in hexadecimal, with or without
their check octets, as `mtpbank play` prints sent ones:
  echo ff80058501800030156e | mtpbank decode
Each prints a line: fisu, lssu or msu, what its header and check octets are, its
status, or its label with an order or with stream and data; or `no unit`. With
--wide the units are those of a script with profile=wide. With --explain a line
at fault is explained.
`mtpbank decode --help` says what each word of it tells, and each fault.";

pub(crate) const HISTORY_PAGE: &str = "\
END is a or b. Standard input is a script, as that of `mtpbank play`. What is
printed is the history of that end: what it was opened with, and a line for each
thing that it was asked and answered, which `mtpbank audit` reads:
  mtpbank history a < examples/changeover.play | mtpbank audit
`mtpbank history --help` says what stands in it, and each fault. With --explain
a line at fault is explained.";

pub(crate) const HISTORY_HELP: &str = "\
END is a or b. Standard input is a script, as `mtpbank play --help` says. When it has ended, all that this end was asked
and answered is printed, an entry a line, in the order in which it was:
  set links=L method=W a=X b=Y sio=HH                what the end was opened with; here X is its own point code, and Y
                      the far end's. Behind it stands profile=wide where the script says so
  user 0 ..           what the script offers, takes and looks for at this end
  terminal L ..       what happens to link L there: next is a unit that is sent (not by fill, of which the set knows
                      nothing), hear one that arrives
`mtpbank audit --help` says how each line is written. A script without a line prints nothing.
A fault ends the script: one line on standard error, with status 1, and no history is printed, of which `mtpbank audit`
behind a pipe says `fault line 1 text`. The faults are those of `mtpbank play`, and --explain says more of them, as there:
  fault line N text, fault line N step, fault exhausted
  fault read, fault long, fault write, fault memory";

pub(crate) const TERMINAL_PAGE: &str = "\
Standard input drives one end of a link set, whose lines are yours. Its first
line opens the end, and each other asks for one thing, mostly of link L:
  set links=1 method=basic a=2 b=1 sio=80
  start, stop, emergency, calm, busy, ease, blind, outage, recover
                          a command to the link's terminal
  octets                  octets come on the line; as many go out
  hear, flags, bits       units, flags or bits come on the line
  offer, take, find       a user's message is handed over, taken, looked for
  noanswer, timed, restore, redeclare, backtimeout, test
                          what Q.704's timers tell the set
  activate, deactivate    level 3 starts the link, restores it, changes it back
  look, counts, events    how the link stands; what waits; where streams run
  history, checkpoint, forget     what the set was asked; that goes out
An octet in and an octet out is a turn, and a turn is all the time there is.
`mtpbank terminal --help` says how each line is written, what it prints, and how
a line is driven. Try `mtpbank terminal < examples/terminal/start.terminal`.";

pub(crate) const TERMINAL_HELP: &str = "\
Standard input drives one end of a link set, line by line, and each line is answered before more is read. What the links
lead to is yours: a timeslot, another terminal, a tester. Words have one space between two, numbers are decimal, octets
two hexadecimal digits each. Lines that are empty or begin with # are passed over. The first line opens the end; the
second may tell the lengths of its timers (Q.703 12.3) in octet times, and the second or the third those of level 3
(Q.704 16.8) in turns of a link, which are octet times too, each 1 to 2^32-1; none of them prints anything:
  set links=L method=W a=X b=Y sio=HH                as in a script (`mtpbank play --help`): a is this end's point code
  timers t1=N t2=N t3=N t5=N t6=N t7=N               without it 360000, 400000, 12000, 800, 32000 and 8000, which are
                      45 s, 50 s, 1.5 s, 0.1 s, 4 s and 1 s at 64 kbit/s
  level3 t1=N t2=N t4=N t5=N t17=N k1=N k2=N         without it 6400, 11200, 6400, 6400, 8000, 64000 and 480000: T1, T2,
                      T4, T5 and T17 are 0.8 s, 1.4 s, 0.8 s, 0.8 s and 1 s; k1 and k2 are of link tests (Q.707), which
                      no set has
Each further line prints events and then its answer, so whoever drives the end reads until a line that is no event:
  start L, stop L, emergency L, calm L, busy L, ease L, blind L, outage L, recover L
                      a command that is obeyed in the link's next turn: done. start and emergency of a link that the set
                      has left and not settled: refused 7, and nothing is done. Those given before one turn are obeyed
                      in the order emergency, calm, start, busy, ease, blind, outage, recover, stop, in whatever order
                      they were given: a link that was out and is told to stop and to start before one turn stays out,
                      and no event tells it. Proving takes 65,536 turns, 4,096 after emergency; after calm SIN goes out
                      again, and the proving that runs goes on; SIB goes out from busy until ease; after blind the link
                      stays up, and its next failure is told without an FSN (ECO). From outage until recover, or until
                      it's out, a link that is ready or in service sends SIPO, and its set hears and sends nothing
  octets L HEX        a turn for each octet: octets L HEX, the octets that went out, as many
  hear L UNIT [xN]    a unit stands on the line, N times (1 to 2^20), with check octets, inserted zeros and a flag
                      behind: turns K, how many turns were taken. UNIT is 1 to 276 octets without check octets, or
                      fisu HEAD, lssu HEAD status=S or msu HEAD body=HEX, where HEAD is bsn=B bib=B fsn=F fib=F, or
                      nothing for 127, 1, 127 and 1
  flags L N           N flags stand on the line: turns K
  bits L BITS [xN]    these bits stand on the line, digits 0 and 1, the first one first: turns K
  offer HEX, take, find N                            user 0, answered as `mtpbank play` answers them
  noanswer L, timed L, restore L, redeclare L, backtimeout L, test L
                      the terminal of link L tells it to the set, answered so too
                      A refusal has its number. offer: 1 under 5 octets, 2 over 273, 3 service indicator 0, 4 the stream
                      has 1,024 unsent messages. take: 9 nothing to take. find: 8 no such number, 11 the message left
                      with a checkpoint. restore and test: 5 the link isn't up. The terminal's: 9 nothing to
                      do, and for test always, since no set has link tests
  activate L          level 3 manages link L from now on: the events of what it asks, and done
  deactivate L        so no more, and the terminal stops. Both: refused 9 where it's so already
  look L              look L WORD phase=P turns=T sent=S good=G bad=B sixteen=X cause=C: how the link stands; its phase
                      at the set (settled, up or left); turns and units from the beginning on; the last cause, or 0
  counts              counts waiting=N,.. unacked=N,.. held=N,.. unsent=N,.. parked=N back=N inbox=N entries=N all=N: by
                      link, from 0, how many messages wait for it, were sent on it and aren't acknowledged, and are held
                      for it, orders among them; by stream, 0 to 15, how many aren't sent; those for which there is no
                      link, and that wait for a changeback; messages for users that weren't taken; and entries of the
                      history since the last checkpoint, and of all
  checkpoint [quiet]  what is finished leaves the set: the entries of its history that go, checkpoint, and done; with
                      quiet done alone
  forget N [told]     from now on a checkpoint behind each N turns of all links together, 0 to 2^32-1; 0: none any more.
                      done; nothing is printed for such a checkpoint, or with told the entries that go, and checkpoint
  history             the entries of its history since the last checkpoint, and done
  events on, events off
                      from now on it's told where streams run, where that changes; or no more: done
What stands on a line is bits, of each octet the lowest first. A turn is taken for each eight, and fewer than eight wait
for the next line of this link. The events; T counts the link's turns from 1:
  message L turn=T    a message for users was heard: `take` gives it
  link L WORD turn=T  the link stands otherwise: out (of service, with cause=C, and by=B where it was stopped, unless a
                      command said so), unaligned, aligned, proving, ready (aligned, and no FISU heard yet), waiting
                      (in service; the set refuses it, since its last life isn't settled), up, paused (the far end has
                      a processor outage), or outage (this end has one)
  level3 L WHAT [ANSWER] turn=T
                      behind this turn level 3 asked so of link L: start, emergency or stop, which its terminal obeys in
                      the next one, or an event of the set, with the answer, done or refused N
  stream S link L turn=T
                      what is offered in stream S, 0 to 15, goes over link L from now on; with events on alone. So too
                      stream S back L: it waits to go back to L (Q.704 6), and stream S nowhere: there is no link for it
  sent L UNIT [xN]    this unit was appended to what goes out, N times in a row; with hear, flags and bits alone
In a turn messages come first, then the WORD, then what level 3 asked, then the unit; and behind the turn where streams
run, and what goes with a checkpoint that forget told, before the next turn of the line. So with told lines that begin
with user, terminal or checkpoint are events too. The causes: 1 error rate, 2 BSN, 3 FIB, 4 T1, 5 T6, 6 T7, 7 a status
that was heard, 8 alignment not possible, 9 stop: by=level3 level 3 said so; by=order the set has left the link, since
it heard a changeover order about it; by=late the order was about a link that isn't up yet: the far end was up there,
and has left it. Last comes `end a ..`, as `mtpbank play` prints it.
The set line and the lines of history and checkpoints one behind another are the history that `mtpbank audit` reads,
where no checkpoint was quiet, and each of forget told.
The SLC of an order is the link's number. To close an end so that the far end hears that its links are out of service
(SIOS) write stop L for each link, then two blocks of octets, then end the input.
A driver may write lines ahead of their answers while a pipe holds what isn't answered, 65,536 octets on Linux: one that
writes more must read meanwhile, or both wait for ever.
To drive a real line read a block of octets from the timeslot, write it as octets, and write the answer to the timeslot:
the line's clock keeps the pace. Begin with two blocks of flags; 64 to 160 octets are usual. Signal units go lowest bit
first and PCM timeslots highest bit first, so a card that gives octets as G.711 has them needs the bits of each octet
reversed, both ways. Where the line is gone go on with blocks of ones (ff), since the end has no clock but its turns.
Of a link that is activated level 3 asks this, with its times:
  link L out          start behind T17, once it's settled; emergency before it, where no other link carries traffic, or
                      when none does any more
  phase=left          timed when T2 ends, or T1 where no other link carried traffic as it failed; T1 begins anew while
                      another link aligns on its first way up. If timed is refused, T2 runs behind T1, and behind T2
                      it's noanswer
  link L up           restore; where that is done redeclare behind T4, and backtimeout T5 later, whether or not the
                      streams are back by then: refused 9 if they are
  link L paused       stop behind T1, where another link carries traffic
All commands work beside it. Of a link that isn't activated whoever drives it asks this:
  link L out, and phase=left after T1 of Q.704 (0.5 to 1.2 s)    timed L: where the order to the far end never went out.
                      If it's refused 9, noanswer L after T2 (0.7 to 2 s). T1 and T2 run only while the order can go
                      out: another link is up, or all are out or waiting, so that none comes up without it
  link L out          start L again after a pause (T17 of Q.704, 0.8 to 1.5 s); emergency L before it, where no other
                      is up. Then fewer than 3,700 octets may be under way on it, both ways together: units of its last
                      life that come when it has proved again are heard as new ones, and their messages come twice
  link L up           restore L, at its first up too, since streams of which messages went over another link stay
                      there: refused 9 where there are none. Where nobody answers within T4 of Q.704 (0.5 to 1.2 s)
                      redeclare L, and within T5, as long, backtimeout L
  memory is short     busy L, and ease L later
A fault ends it: one line on standard error, with status 1; what was printed before stays:
  fault line N text   line N, from 1 and with those passed over, can't be read; behind it stands where a space, a tab
                      or a carriage return is wrong
  fault line N step   it asks for a link that isn't there
  fault memory        memory is wanted; or a link took 2^48 turns, or the set was asked 2^48 times
  fault read, fault write
  fault long          standard input has more than 2^60 octets
With --keep a line that can't be read, or asks for a link that isn't there, is answered fault line N text or fault line
N step on standard output. Nothing is done then, and the lines behind it are read on: only one of more than 4,096 octets
ends the input. So a driver waits for fault as for any answer.
With --explain the numbers of `refused` and `found discarded` have words behind them, as in `refused 5 (not up)`, and
more lines come behind that of a line's fault, wherever it's told: what is wanted, the line, and a caret under the word
at fault, or right behind the line where a word is missing:
  fault line 3 text
  line 3: octets wants a link, and octets of two hexadecimal digits
    octets 0
            ^";

pub(crate) const CAPTURE_PAGE: &str = "\
Standard input is a script, as that of `mtpbank play`. What is written is a file
of the units that its ends send, for Wireshark and other network analysers:
  mtpbank capture < examples/call.play > call.pcap
`mtpbank capture --help` says what stands in it, and each fault. With --explain
a line at fault is explained.";

pub(crate) const AUDIT_PAGE: &str = "\
Standard input is a history of one link set, wherever it comes from: what the
set was opened with, and then a line for each thing that was asked and answered:
  set links=1 method=basic a=2 b=1 sio=80
  terminal 0 up 0 -> done
  user 0 offer 8501800030 -> accepted 0
What is printed is legal=yes with what the history adds up to, or legal=no with
the line of the first entry that no such set makes, and its answer there.
`mtpbank audit --help` says how each line is written, and each fault. With
--explain a line that can't be read is explained.";

pub(crate) const AUDIT_HELP: &str = "\
Standard input is a history of one link set. Lines that are empty or begin with # are passed over; the first other
line is the one that opens a script (`mtpbank play --help`), with a the set's own point code and b the far end's; units
stand in the profile that it tells. Each further line is an entry: who asked, what, an arrow, and what was answered, in
lower case with one space between two words:
  user N ..           user N, 0 to 63
  terminal L ..       the terminal of link L, 0 to 15; who asks what isn't looked at beyond these numbers
  .. offer HEX, .. take, .. find N                   as in a script; offer without HEX is the empty body
  .. next L           the next unit to send on link L
  .. hear L HEX       a unit that was heard on link L, without check octets
  .. up L             link L comes up at this end, which is answered done
  .. down L, blind L, noanswer L, timed L, restore L, redeclare L, backtimeout L, test L
  .. -> ANSWER        as `mtpbank play` prints it; the octets that were sent stand with their check octets. Where these
                      are wrong, or a number stands in it that no set answers, the line can't be read
A line checkpoint between entries says that the set took a checkpoint there: what is finished leaves it, and who looks
for it is refused 11. So the pieces of a history, each up to its checkpoint, are read one behind another.
The set is replayed from its opening, an entry as it's read; what is kept is what the set keeps. It prints one line:
  legal=yes calls=N accepted=M octets=O acked=A      every entry is what such a set answers then: there are N, which
                      accepted M messages with O octets in all, of which A are acknowledged
  legal=no line=N -> ANSWER                          the entry on line N, from 1, is the first that isn't: such a set
                      answers this there. No set has its actor: no such user or terminal
A line that can't be read is a fault, whether or not an entry before it is wrong. A fault is one line on standard error,
with status 1; but for the first, nothing is printed then:
  fault line N illegal                               behind legal=no
  fault line N text   line N, from 1 and with those passed over, is no such line; or the text ended before line N
                      without the one that opens the set. Behind it stands what else is wrong: more than 16,384
                      octets, a carriage return or a space at its end, a tab, a space before it, two spaces
  fault exhausted     there are more than 2^48 entries
  fault read          standard input failed
  fault long          standard input has more than 2^60 octets
  fault write, fault memory
With --explain three more lines come behind that of a line which can't be read: what is wanted there, the line, and a
caret under the word at fault, or right behind the line where a word is missing; of a line of more than 16,384 octets
nothing is said, and nothing of an illegal entry: the line behind legal=no is what a set answers there.
  fault line 3 text
  line 3: here stands offer, take, find, next, hear, up, down, blind, noanswer, timed, restore, redeclare, backtimeout or test
    user 0 ofer 8501800030 -> accepted 0
           ^
The status is 0 for legal=yes, and 1 else.";

pub(crate) const CAPTURE_HELP: &str = "\
Standard input is a script, as `mtpbank play --help` says. Standard output is a pcap file of link type 139
(MTP2_WITH_PHDR), low octet first, with a record for each unit that end a or b sends (the lines `emit E L` and
`fill E L`), in the order in which they are sent, whether or not they arrive:
  time                a millisecond for each line of the script: the unit of line 12 has 0.012000 seconds
  direction, link     sent for the units of end a and received for those of end b, and the link's number: Wireshark and
                      tshark show both (frame.p2p_dir, frame.link_nr)
  octets              the unit's header and what it carries, without check octets; `tshark -r FILE -V` shows them
The units of a script with profile=wide are translated, since analysers know numbers of 12 bits only in the form of
Q.703 Annex A: a header of six octets, the low octet of each pair first, with the BSN in 12 bits, three spare ones and
the BIB, the FSN and the FIB so too, and the length in nine. The records say so, and Wireshark reads them without any
setting; of the FSN in a COO or COA it shows the low seven bits.
A script without a line writes a file without a record.
A fault ends the script: one line on standard error, with status 1; what was written before it stays, and is a capture
of what was sent until then; where the first line is at fault nothing is written. The faults are those of `mtpbank
play`, and --explain says more of them, as there:
  fault line N text, fault line N step, fault exhausted
  fault read, fault long, fault write, fault memory";

pub(crate) const LADDER_PAGE: &str = "\
Standard input is a script, as that of `mtpbank play`. What is printed is a
chart of what happens, end a at the left, end b at the right, a row a thing:
  mtpbank ladder < examples/call.play
`mtpbank ladder --help` says what each arrow and word of it tells. With
--explain a line at fault is explained.";

pub(crate) const LADDER_HELP: &str = "\
Standard input is a script, as `mtpbank play --help` says. Standard output is a chart of 100 columns in plain ASCII: the
number of the script's line, what happens at end a, what is under way, and what happens at end b.
  --1-->|, |<--1--    at the side of an end: a unit goes out on link 1 from there, or arrives there
  IAM #4 fsn=1 ..     which unit it is: a message's name in the ISDN user part, or MSU; #4, the number under which its
                      sender accepted it, while that has it unacknowledged on the link; its FSN, BSN, stream (in the
                      wide profile no BSN where the stream has no room else). An order is told as COO #3 link 1 fsn=0,
                      and a fill-in unit as FISU
  --1--x, x--1--      a unit is lost on its way to that end, by lose or because the link isn't up there
  --1..>, <..1--      a unit that nobody sent is heard (hear)
  1>0 1>1 0<f         in the middle, the units that are under way then, each with its link: to end b with FSN 0 and FSN
                      1 on link 1, the oldest first, and to end a a fill-in unit (f) on link 0
  accepted IAM #4     a user's message is message 4 of that end; taken IAM HEX: a user takes it
  link 1 up, left, settled    so it is at that end
  #1 #4 to link 0     behind settled: these messages are diverted and wait for link 0 now; parked where no link is up
  took T, acked K     what the unit did: T as in `mtpbank play`, K messages are acknowledged; behind it in a row of its
                      own asked=0|1 resend=0|1 fault=F, where one isn't 0
  held+3 parked-1     so many messages more or fewer stand so at that end: held for a link that isn't settled, parked
                      where no link is up, back while their stream is on its way home, discarded for good
Other words are the answers of `mtpbank play`, with the reason behind a number, as in refused 9 (nothing to do). Two dots
(..) stand where more doesn't fit. A fault ends the script: one line on standard error, with status 1; what was drawn
before it stays. The faults are those of `mtpbank play`, and --explain says more of them, as there:
  fault line N text, fault line N step, fault exhausted
  fault read, fault long, fault write, fault memory";

pub(crate) const DECODE_HELP: &str = "\
Each line of standard input is the octets of one unit, of two hexadecimal digits each and nothing between them:
without flags and inserted zeros, and with or without the check octets. Lines that are empty or begin with # are
passed over. Each other line prints one, which begins with the kind of the unit and its header:
  fisu bsn=B bib=0|1 fsn=F fib=0|1 li=I check=C      I is the length indicator; C is right or wrong, or none
                      where there are no check octets
Behind that stands what the unit carries:
  lssu .. status=S    S is SIO, SIN, SIE, SIOS, SIPO or SIB, or 6 or 7, which aren't assigned
  msu .. si=N ssf=N dpc=X opc=Y stream=S data=HEX    the service indicator and the subservice field, the point
                      codes, the SLS, which is the stream, and the octets behind the label
  msu .. si=0 ssf=N dpc=X opc=Y COO link L fsn=F     a changeover order about link L, whose end accepted FSN F
                      last; so too COA, its acknowledgement
  msu .. CBD link L code=C, CBA link L code=C        a changeback declaration, its acknowledgement
  msu .. ECO link L, ECA link L                      an emergency changeover order, its acknowledgement
  msu .. body=HEX     SIO and SIF without a whole label
  no unit             neither all octets nor all but the last two are a unit: the length indicator is wrong, or
                      there are too few or too many
The last two octets are check octets where they are right for those before them, or where only those before them are
a unit. From length indicator 63 on, a unit with wrong check octets looks like a longer one without them.
With --wide the units are those of the wide profile (no standard's): their header has four octets, the lowest first,
and in them, lowest bit first, the BSN in 12 bits, the BIB, the FSN in 12 bits, the FIB and the length indicator in
six; a COO or COA has its FSN in 12 bits.
A fault ends the input: one line on standard error, with status 1; what was printed before it stays.
  fault line N text   line N, from 1 and with those passed over, isn't octets in hexadecimal. Behind it stands what else
                      is wrong: more than 4,096 octets, a carriage return or a space at its end, a tab, a space before
                      it, two spaces
  fault read, fault write, fault memory              standard input, standard output or memory failed
With --explain three more lines come behind that of a line's fault: what is wanted there, the line, and a caret under the
word at fault, as `mtpbank play --help` shows it; a line of more than 4,096 octets isn't shown.";

pub(crate) const RUN_PAGE: &str = "\
Two banks run, one with the ends a of all sets, the other with the ends b. Users
of the ends a offer messages, and those of the ends b take them. See a link fail
under traffic and come back, on damaged lines:
  mtpbank run --report --fail 1 --noise 100000
`mtpbank run --help` says what each line means, and lists each fault.";

pub(crate) const RUN_HELP: &str = "\
`mtpbank run --report` runs one set of two links until all its messages are delivered; --fail 1 stops link 1 under
traffic, and --noise 100000 damages its lines: of one in 100,000 octets a bit is inverted, or the octet is lost. A set
has two ends, a and b, and a thread for each user and each terminal. A link is a pair of rings of octets between two
terminals. In a turn a terminal sends an octet and hears one; it waits where it is 64 turns ahead of the far end. Each
user of end a offers its messages, and finds each accepted one. Standard input isn't read.
With --report links are managed:
  start               a user begins when all links of its set are up, or after 80,000 turns, and has at most 64
                      messages on their way; its number is its stream's, whose home is the link of that number modulo L
  restart             a link out of service starts again after 6,400 turns (T17, Q.704 16.8), if its set has settled it;
                      each link that comes up asks for its streams
  no answer           an answer is awaited for 24,576 turns after a changeover, for 65,536 units after a changeback
  --fail              the link stops at end a, 4 turns for each message of a user after the users began
  end                 all is offered, nothing waits or is unacknowledged, and the stopped link is up again; or T turns
Without --report all end after T turns: the user of end b asks for a message 1,000 times, and --fail stops its link for
good after half of the turns. At a checkpoint finished messages leave the set: each user takes one after C accepted
messages or questions, each terminal after 64 times C steps. Then each set is closed and audited, and printed:
  set=I end=a accepted=X placed=Y legal=yes          end a accepted X messages of its users; Y of them have a place; its
                      history is legal. So too end=b, and `total` for all ends
  set=I end=a offered=.. (--report)                  the messages that end a accepted, that the far end accepted and
                      acknowledged, that users took; that wait or aren't acknowledged; that were sent on another link
                      than their home, given up, sent again
  set=I link=K end=a sent=.. (--report)              units sent, messages and their octets among them, messages sent
                      again; so too good units heard; bad units, and sixteen octets each without a good one; how often
                      the link came up; why it failed last: suerm, bsn, fib, t1, t6, t7, status, alignment or stop
  run messages=M octets=O seconds=S ..               delivered in all, in this time
  all delivered in order                             the users of ends b took all messages, each stream in order; or
  missing, given-up or unfinished set=I stream=U message=N
                      this message of user U wasn't taken in its order: it is lost; or its set gave messages up, since
                      a link failed (cause=) and no answer came; or the turns ended before it arrived. The status is 1
--capture writes what was sent as `mtpbank capture` does, an octet in 125 microseconds; a link's number is 256 I + K.
Threads decide what is sent on a link, so runs differ. A fault is one line on standard error, with status 1:
  fault user .. fault=F, fault terminal .. fault=F   F: 1 no memory, 2 (user) or 3 (terminal) the history is full, 3
                      (user) a message isn't found
  fault memory, fault thread, fault close, fault write
A link of --fail that isn't below --links is `fault link`, with status 2.";

pub(crate) const HELP: &str = "\
All but run read standard input to its end, as in `mtpbank play < examples/changeover.play`. `mtpbank play --help` is
the manual of play, and so with each subcommand; with `-h` it's a page. A fault is one line on standard error (three
more with --explain, which scripts, decode and terminal have), and what was printed before it stays:
  fault line N text, fault line N step               a line can't be read, or one of a script can't be done
  fault line N illegal                               an entry of a history is one that no set makes
  fault octet P                                      a character is no hexadecimal digit, or one is left over
  fault read, fault write, fault memory              standard input, standard output or memory failed
  fault long                                         a script has more than 2^24 octets, another input more than 2^60
  fault exhausted                                    the history of an end is full
  fault thread, fault close                          a thread couldn't be started, a set couldn't be closed
  fault user .., fault terminal ..                   this user or terminal of a run ended early
  fault missing .., given-up .., unfinished ..       a run with --report didn't deliver this message
A pipe behind standard output that nobody reads any more ends with status 1 too, and no line.
The status is 0, or 1 after a fault, or 2 where the words of the command line are wrong (`fault link` too).";

pub(crate) const UNITS_HELP: &str = "\
Two hexadecimal digits are an octet of the line, fed lowest bit first, with its flags, inserted zeros and check
bits as they are sent. Spaces, tabs, CR and LF are skipped. Each line of the output is a mark:
  good fisu bsn=B bib=0|1 fsn=F fib=0|1              a unit with right check bits, and what it holds
  good lssu bsn=B bib=0|1 fsn=F fib=0|1 status=S     so too; S 0 to 5 is SIO, SIN, SIE, SIOS, SIPO, SIB; 6 and 7
                    aren't assigned
  good msu bsn=B bib=0|1 fsn=F fib=0|1 body=HEX      so too; the body is SIO and SIF
  good fault=N      right check bits, but no unit: 1 too short, 2 too long, 3 a wrong length indicator
  bad               a damaged unit: anything else between two flags
  sixteen           sixteen octets counted without a good unit, where alignment is lost: by seven ones in a row, or
                    more octets than a unit has; nothing is marked bad from there to the next good unit
and the last one counts them. `echo 7edff705f8beaf1f | mtpbank units` shows a FISU between two flags.
A fault ends the input: one line on standard error, with status 1; what was printed before it stays.
  fault octet P     the character at P, counted from 0, is neither a digit nor skipped, or the input ends
                    there with a digit left over
  fault read, fault write, fault memory              standard input, standard output or memory failed";

pub(crate) const PLAY_HELP: &str = "\
A script walks two ends, a and b, of a link set; nothing happens there but what its lines ask for. Lines that
are empty or begin with # ask for nothing. The first other line is
  set links=L method=W a=X b=Y sio=HH
with 1 to 16 links, numbered from 0; the method basic, or cyclic:N1:N2 (so many unacknowledged messages, 1 to
127, or octets of them, 1 to 34671, force a cycle); the point codes of the ends, 0 to 16383; and the SIO of the
set's own orders, in hexadecimal, with service indicator 0. Behind it profile=narrow may stand, which changes
nothing, or profile=wide: units have numbers of 12 bits then, 0 to 4095, in a header of four octets, at most 4,095
messages are unacknowledged, bodies have 272 octets at most, and a cycle is forced by 1 to 4095 messages or 1 to
1113840 octets. No link is up at first. Each line after that asks for one thing
(E is an end, a or b, L a link, HEX octets of two hexadecimal digits each):
  together L          link L comes up, which is settled at both ends: not up there, and no changeover of it is open;
                      nothing is under way on it then
  rise E L            link L, which is settled at end E, comes up there alone, as the links of two ends do, one after
                      the other; where it's settled at the other end too, nothing is under way on it then
  fill E L            the terminal of link L at end E, ready before the set of end E has it up, sends a FISU, which is
                      under way to the other end then; the set isn't asked for it
  offer E HEX         a user of end E offers a message: SIO and SIF, the label first; without HEX the empty body
  take E              a user of end E takes the oldest message that was heard
  find E N            a user of end E asks where message N stands
  emit E L            end E sends its next unit on link L; it is under way to the other end then
  arrive E L          the oldest unit under way to end E on link L arrives there
  lose E L P          of those units the one at place P, from 0, is lost
  hear E L HEX        end E hears these octets of a unit of the set's profile, without check octets, wherever they come
                      from
  down E L            link L fails at end E, which tells the other what it accepted (COO)
  blind E L           link L fails at end E, which can't tell what it accepted (ECO)
  noanswer E L        end E had no answer to the changeover of link L: what was sent on it is discarded, and orders that
                      wait there; users' messages that were never sent go on over another link
  timed E L           end E takes back the order about link L, which never was sent: what was sent on the link is
                      discarded, and all that was never sent goes on over another link
  restore E L         end E asks the streams whose home is link L back to it, from each other link that is up (CBD)
  redeclare E L       end E asks once more (CBD), by each code whose order isn't on its way any more: one answer more is
                      wanted for it, and the last frees it
  backtimeout E L     end E had no answer to the changeback to link L
  test E L            end E asks for a test of link L (Q.707), which no set has: refused 5 or 9
Words are separated by one space, numbers are decimal without leading zeros, and lines end in LF.

Each of these lines prints one:
  up                  the link is up, at both ends or, by rise, at that one
  accepted N          the message has number N; messages and orders of an end are counted together, from 0
  taken HEX           the message that was taken
  found waiting L, found unacked L, found acked L       to be sent, sent, acknowledged on link L
  found held L        offered when link L was left, or turned back there, and waits until that is settled; what was sent
                      on L or waited for it stays unacked or waiting there until then
  found parked        no link can take it until one comes up
  found back C        its stream is on its way home; the message waits for the answer with code C, which is 16
                      times the number of the home plus that of the link the stream comes from
  found discarded C   given up: 1 an emergency, 2 the other end told an FSN that can't be, 3 no answer
  sent HEX            the unit that was sent, by emit or fill; its last two octets are the check octets
  heard acked=K took=T asked=0|1 resend=0|1 fault=F     what the unit did: K messages are acknowledged;
                      T is nothing, message (new, for users), order, or ignored (an order without effect, or another
                      message of the management, which users don't get);
                      asked=1, the end asks for retransmission; resend=1, it is asked for it; F is 2 for
                      abnormal BSNs, 3 for abnormal FIBs, else 0 (the link stays up until down or blind)
  lost                the unit is lost, by lose or because the link isn't up where it arrives
  done                the link has failed, or settled without an answer or by time; or streams were asked back, once
                      or again, or go home without an answer
  refused C           1 under 5 octets, 2 over 273 (wide: 272), 3 service indicator 0, 4 the stream has 1,024 unsent
                      messages, 5 the link isn't up, 8 no such message, 9 nothing to take or to do: for hear
                      the unit tells a status (LSSU), for noanswer and timed the link wasn't left or has settled,
                      for timed its order was sent, for restore no stream of link L runs on another link that is up,
                      but for those whose code is still in use, for redeclare each order of link L that wants an answer
                      is on its way, for backtimeout no code of link L is in use, and for test always
The last two lines count the users' messages of each end by where they stand.

A label is four octets, the lowest first: DPC + 2^14 OPC + 2^28 SLS. The SLS, the high digit of a message's fifth
octet, is its stream, whose home is link stream modulo the number of links; where that link wasn't up or has failed,
the stream runs on another one. A changeover of link 1 is `down a 1`, after which an order waits on the lowest link
that is up, ahead of users' messages; `emit a 0` and `arrive b 0`, where b leaves link 1 too; `emit b 0` and
`arrive a 0`, which carry b's answer. Link 1 is settled then, and what b hasn't accepted waits at a for link 0, in
order. Where no link is up the order is parked, and goes out on the first that comes up; if that is link 1 itself,
after noanswer, the order is discarded there. When link 1 comes up again, its streams that have had messages stay on
link 0, until `restore a 1` asks them back: an order waits on link 0 behind all that waits there, and what is offered
then is found back. When b's answer has come, it waits for link 1, in order.

A fault ends the script: one line on standard error, with status 1; what was printed before it stays.
  fault line N text   line N, from 1 and with remarks, can't be read: a word that isn't known, too few or too many
                      words, a leading zero, a number out of its range, an odd number of digits, or in hear octets
                      that are no unit. Behind it stands what else is wrong: more than 4,096 octets, a carriage return
                      or a space at its end, a tab, a space before it, two spaces
  fault line N step   it can't be done: no such link, together where the link isn't settled at both ends, rise where it
                      isn't at that one, or arrive or lose where no such unit is under way
  fault read          standard input failed
  fault long          standard input has more than 2^24 octets
  fault write, fault memory, fault exhausted (a history has 2^48 entries)
With --explain the numbers of `refused` and `found discarded` have words behind them, as in `refused 5 (not up)`, and
more lines come behind that of a line's fault on standard error: what is wanted there, the script's line, and a caret
under the word at fault, or right behind the line where a word is missing:
  fault line 3 text
  line 3: offer wants an end, a or b, and octets of two hexadecimal digits
    offer
         ^
A long line is cut around the caret, where two dots stand, and an octet that is no printable character of ASCII is
shown as one; a line of more than 4,096 octets isn't shown.";
