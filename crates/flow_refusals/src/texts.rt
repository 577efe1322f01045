//! What each refusal means, what usually causes it, and what to do.

pub(crate) const SHORT: &str =
    "1 Short: a message has fewer than 16 octets, which its header alone takes.\n\
Usual cause: a caller of the library handed over a part of a message. In a File\n\
this is 15 Cut.\n\
What to do: hand over whole messages.\n";

pub(crate) const VERSION: &str =
    "2 Version: the version of a message isn't 10, that of IPFIX (RFC 7011).\n\
Usual cause: NetFlow v5 (5) or NetFlow v9 (9) was handed to the library. In a\n\
File this is 16 Version.\n\
What to do: have the exporter send IPFIX.\n";

pub(crate) const LENGTH: &str =
    "3 Length: the Length field of a message isn't the count of its octets.\n\
Usual cause: a message that was cut off, or several in one piece. In a File this\n\
is 15 Cut.\n\
What to do: cut messages off by their Length field.\n";

pub(crate) const SET_LENGTH: &str =
    "4 SetLength AT: the Set at octet AT of the message has a Length below 4, or runs\n\
past the message's end.\n\
Usual cause: an exporter with a fault, or octets that were damaged on their way.\n\
What to do: see the messages before the one whose number the refusal has with\n\
'flowvault dump'; tell the exporter's maker.\n";

pub(crate) const TEMPLATE_CUT: &str =
    "5 TemplateCut AT: the template record at octet AT of the message runs past its\n\
Set's end.\n\
Usual cause: an exporter with a fault, or octets that were damaged on their way.\n\
What to do: see the messages before with 'flowvault dump'; tell the exporter's\n\
maker.\n";

pub(crate) const TEMPLATE_ID: &str =
    "6 TemplateId AT: the template record at octet AT of the message has an ID below\n\
256 that no withdrawal has (RFC 7011, section 3.4.1).\n\
Usual cause: an exporter with a fault.\n\
What to do: see the messages before with 'flowvault dump'; tell the exporter's\n\
maker.\n";

pub(crate) const SCOPE_COUNT: &str =
    "7 ScopeCount AT: the Options Template Record at octet AT of the message has no\n\
scope field, or more of them than fields (RFC 7011, section 3.4.2.2).\n\
Usual cause: an exporter that writes NetFlow v9's option templates as IPFIX.\n\
What to do: turn its option templates off, or tell the exporter's maker.\n";

pub(crate) const RECORD_CUT: &str =
    "8 RecordCut AT: the data record at octet AT of the message runs past its Set's\n\
end by a field of variable length.\n\
Usual cause: a template that isn't the one which the exporter used, since another\n\
exporter has the same Observation Domain; or an exporter with a fault.\n\
What to do: give each exporter a domain or an archive of its own.\n";

pub(crate) const TEMPLATES_FULL: &str =
    "9 TemplatesFull DOMAIN: the templates in force in this Observation Domain would\n\
take more than 60000 octets.\n\
Usual cause: an exporter that makes new templates and never withdraws old ones.\n\
What to do: restart it, so that it uses fewer; or begin a new archive.\n";

pub(crate) const DOMAINS_FULL: &str =
    "10 DomainsFull: more than 64 Observation Domains would have templates in force.\n\
Usual cause: the Files of many exporters in one archive.\n\
What to do: spread the exporters over several archives.\n";

pub(crate) const OUT_OF_MEMORY: &str =
    "11 OutOfMemory: the system gave no memory. Nothing was changed by that call.\n\
Usual cause: a limit on the process (ulimit -v, a control group), or a machine\n\
that is full.\n\
What to do: raise the limit, and run it again.\n";

pub(crate) const SUM_SPENT: &str =
    "14 SumSpent: a sum would be greater than its type holds: 2^64 - 1 flows, 2^128 - 1\n\
octets or packets.\n\
Usual cause: none in honest input.\n\
What to do: sum over a narrower width.\n";

pub(crate) const FILE_CUT: &str =
    "15 Cut AT: the File ends inside the message that begins at octet AT.\n\
Usual cause: a capture or a copy that was cut off, or a File that its collector\n\
still writes.\n\
What to do: the messages before AT are whole: 'dump' writes them, and 'feed' has taken\n\
them in. Copy the File again, or wait until it is closed, and feed what is new.\n";

pub(crate) const FILE_VERSION: &str =
    "16 Version AT: the message that begins at octet AT of the File has another version\n\
than 10, that of IPFIX.\n\
Usual cause: at octet 0 a File that isn't IPFIX: a pcap capture of packets, NetFlow\n\
v5 or v9, a compressed File (.gz, .xz, .zst), or text. Later in the File octets\n\
that were lost or added.\n\
What to do: uncompress it first (zcat FILE.gz | flowvault dump); take a pcap to\n\
IPFIX with a flow meter such as yaf or softflowd; have the exporter send IPFIX.\n";

pub(crate) const FILE_LENGTH: &str =
    "17 Length AT: the message at octet AT of the File has a Length field below 16.\n\
Usual cause: octets that were lost or added before it, or a File that isn't IPFIX.\n\
What to do: see the messages before with 'flowvault dump'; copy the File again.\n";

pub(crate) const DAMAGED: &str =
    "20 Damaged FILE AT: file FILE of the archive isn't what flowvault wrote, from octet\n\
AT on. FILE 1 and 2 are 1.slot and 2.slot, each other one is FILE.ipfix.\n\
Usual cause: another program changed the file, a copy of the folder was made while\n\
it was in use, or the disk lost what it had promised to keep.\n\
What to do: copy the folder away before anything else, look at the disk and the\n\
file system, and take the folder from a backup. The messages of a sealed segment\n\
are an IPFIX File: 'flowvault dump < FILE.ipfix' writes those before the damage.\n";

pub(crate) const FORMAT: &str =
    "21 Format SLOT: SLOT.slot is open and its format is neither 1 nor 2.\n\
Usual cause: a newer flowvault wrote the archive, or the file was changed.\n\
What to do: use the newer flowvault; else take the folder from a backup.\n";

pub(crate) const ENTRIES: &str =
    "22 Entries SLOT: SLOT.slot is open, and a number in it is out of its range, or its\n\
entries aren't those of an archive.\n\
Usual cause: the file was changed, or the disk lost what it had promised to keep.\n\
What to do: copy the folder away, and take it from a backup.\n";

pub(crate) const SLOT_CUT: &str =
    "23 Cut SLOT: SLOT.slot is open and has fewer octets than its manifest, or more; or\n\
it is empty or gone beside the other one.\n\
Usual cause: a copy of the folder that lacks a file, or the disk lost what it had\n\
promised to keep.\n\
What to do: copy the folder again, with 1.slot and 2.slot; else take it from a\n\
backup.\n";

pub(crate) const NO_ARCHIVE: &str = "24 NoArchive: the folder holds no archive: no slot is open.\n\
Usual cause: another folder was meant, or the archive isn't made yet.\n\
What to do: look at the folder's name; 'flowvault create DIR 300' makes an archive.\n";

pub(crate) const NUMBERS_SPENT: &str =
    "25 NumbersSpent: the next message would be number 2^48, or the next file or manifest\n\
number 2^64.\n\
Usual cause: none in practice.\n\
What to do: begin a new archive.\n";

pub(crate) const NOT_ROLLED: &str =
    "26 NotRolled AT: octets that a caller of the library decodes aren't sums as flowvault\n\
writes them, from octet AT on. In an archive this is 20 Damaged.\n\
Usual cause: another File was handed over.\n\
What to do: hand over a rolled file of an archive with the same width.\n";

pub(crate) const NOT_EMPTY: &str =
    "27 NotEmpty: 'create' found a file n.ipfix, 1.slot or 2.slot in the folder.\n\
Usual cause: the folder has an archive already, or a 'create' that was stopped left\n\
its first files.\n\
What to do: 'flowvault check DIR' says what it holds. Where that answers 23 or 24 and\n\
nothing was ever fed, remove 1.slot, 2.slot and 3.ipfix, and make it again; else make\n\
a new folder.\n";

pub(crate) const FAULT: &str =
    "30 Fault: the system refused or failed a call on the archive's folder.\n\
Usual cause: the folder isn't there, or isn't a folder; its owner or its rights\n\
don't allow it; another flowvault uses it, or the name of one of its files is that\n\
of a link or a folder; the disk is full, read-only or failing. A second line says\n\
which, where the system said so.\n\
What to do: look at the folder with 'ls -ld DIR' and 'df DIR', and at the system's\n\
log, and mend that. Then 'flowvault roll DIR 4294967295' settles the archive, and\n\
rolls nothing: while it answers 30 the disk still fails; no restart is needed. Then\n\
'flowvault check DIR' says how many messages there are: each that was acknowledged,\n\
and perhaps the message or batch under way. Feed the others alone.\n";

pub(crate) const READ: &str = "31 Read: the input couldn't be read.\n\
Usual cause: by what the system said: no such file; no right to read it; it is a\n\
folder; standard input is closed; a device or a network file system failed.\n\
What to do: look at the File with 'ls -l FILE' and 'wc -c < FILE'; then run it\n\
again.\n";

pub(crate) const WRITE: &str =
    "32 Write: the output couldn't be written, or its first part alone was.\n\
Usual cause: by what the system said: the disk is full; the reader of a pipe has\n\
ended, as 'head' does; standard output is closed.\n\
What to do: make room, and run it again. A pipe that ends early is no fault.\n";

pub(crate) const NO_ROOM: &str = "40 NoRoom: the messages don't fit the active segment any more.\n\
Usual cause: a caller of the library that doesn't seal the segment.\n\
What to do: seal, and append again.\n";

pub(crate) const MANIFEST_FULL: &str =
    "41 ManifestFull: the archive has 4096 files, the most that it names.\n\
Usual cause: many segments were sealed, and none were rolled.\n\
What to do: roll old segments ('flowvault roll DIR 8'), of which then sums alone are\n\
left; and merge old sums ('flowvault merge DIR 8'), of which then sums over wide\n\
intervals alone are left: a day, unless 'create --wide' said another width. Bills by\n\
peak, as the 95th percentile, can't be made of these. Or begin a new archive with a\n\
greater --limit.\n";

pub(crate) const NOTHING_TO_SEAL: &str =
    "42 NothingToSeal: the active segment has no message that was appended.\n\
Usual cause: a caller of the library that seals twice.\n\
What to do: nothing: there is nothing to lose.\n";

pub(crate) const ROLL_BUSY: &str =
    "43 RollBusy: a job of rolling or merging is under way already.\n\
Usual cause: a caller of the library that begins a second one.\n\
What to do: finish it, or drop it.\n";

pub(crate) const NO_ROLL: &str = "44 NoRoll: no job of rolling or merging is under way.\n\
Usual cause: a caller of the library that steps or installs before it begins.\n\
What to do: begin a job.\n";

pub(crate) const ROLL_COUNT: &str =
    "45 RollCount: a job over no file, or over more than there are, was asked for.\n\
Usual cause: a caller of the library that counts wrong.\n\
What to do: ask for 1 up to the count of sealed segments, or of rolled files.\n";

pub(crate) const ROLL_NOT_DONE: &str =
    "46 RollNotDone: a job was to write before it read all sources, or to be installed\n\
before its file was written.\n\
Usual cause: a caller of the library that skips a step.\n\
What to do: go on with the job step by step.\n";

pub(crate) const PINNED: &str =
    "47 Pinned: a file that waits for its removal is still read by a snapshot.\n\
Usual cause: a query that takes long.\n\
What to do: nothing: it is removed later, at the latest when the archive is opened.\n";

pub(crate) const NOTHING_TO_RETIRE: &str = "48 NothingToRetire: no file waits for its removal.\n\
Usual cause: all of them are removed.\n\
What to do: nothing.\n";

pub(crate) const CLOSED: &str =
    "49 Closed: an earlier call of this run met 30 Fault, and the archive takes no more\n\
changes in it.\n\
Usual cause: see 'flowvault explain 30'.\n\
What to do: as there: mend the cause; then 'flowvault check DIR' says how many\n\
messages the archive has. What was acknowledged is on the disk.\n";

pub(crate) const AWAY: &str = "50 Away: what readers are shown of the archive can't be read now.\n\
Usual cause: its writer has ended, as when a shell ends.\n\
What to do: ask again. What was acknowledged is on the disk.\n";

pub(crate) const WIDTHS: &str =
    "51 Widths: the archives that are summed together have intervals of other widths.\n\
Usual cause: one of them was created with another WIDTH, or another --wide.\n\
What to do: ask archives of the same widths together, the others apart.\n";

pub(crate) const ROLLED: &str = "52 Rolled CUT: messages that are asked for are in sums alone.\n\
Usual cause: they were rolled: of the first CUT messages no octets are kept.\n\
What to do: ask from message CUT + 1 on, or for a span that no interval of sums meets.\n";
