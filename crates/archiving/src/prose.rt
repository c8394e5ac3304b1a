// What the archive says in words.

pub(crate) const TITLE: &[u8] = b"ARCHIVE OF AN AES-128 LANE CIPHER UNIT

This text is enough to recover a block of sixteen bytes that was sealed by this unit, if the key is
known: by hand, by any computer, or by any machine that can do the six gates of section 1. The
sealed bytes are plain AES-128 as in FIPS 197, each block for itself; how a longer message was cut
into blocks, or chained, is no part of the unit. So whoever has FIPS 197 can also use its inverse
cipher (InvCipher after KeyExpansion, Nk = 4, Nr = 10), and needs nothing else of this text. The
rest is for those who want to repeat exactly what the unit did, or who have no other AES at hand.

Sections: 1 Words. 2 Coordinates. 3 Pages. 4 Plans. 5 Counts. 6 An example.

";

pub(crate) const WORDS: &[u8] = b"1 WORDS
-------

Numbers are decimal, and counted from 0, unless something else is said. BYTES are written as two
hexadecimal digits (0 to 9, then a to f for ten to fifteen), and several bytes without a space
between them, byte 0 first: 0a1f has byte 0 = 0a and byte 1 = 1f. BIT i of a byte or number is what
2 to the power i is worth in it, so bit 0 is the lowest bit: 0a has the bits 1 and 3. A hexadecimal
number that is no list of bytes (the checks of section 3) is written with its highest digit first.
\"div\" is division without the remainder, and \"mod\" the remainder: 13 div 8 = 1, 13 mod 8 = 5.
XOR, also called adding: the XOR of two bits is 1 where they differ; of two bytes, bit by bit.

A REGISTER shows one bit, 0 or 1. Registers are numbered from 0; 2048 of them are enough.
A LANE is one copy of all the registers, for one block and its key. The unit has up to 128 lanes
side by side and does each gate in all of them at once. Lanes never touch one another, so whoever
recovers one block needs one lane, and can read \"register\" for \"register of that lane\".

A GATE has a kind, a target and two operands a and b. It takes the bits x and y that a and b show
and then makes the target show the kind's result. All other registers stay as they are. The target
may be one of the operands; x and y are taken first. The six kinds, with the numbers by which the
unit's machines name them:

  number  kind   result
       0  XOR    1 where x and y differ, else 0
       1  AND    1 where both are 1, else 0
       2  OR     1 where at least one is 1, else 0
       3  XNOR   0 where x and y differ, else 1
       4  NAND   0 where both are 1, else 1
       5  NOR    0 where at least one is 1, else 1

A PAGE is a list of gates, done in order, first to last. Its gates do not name registers but NUMBERS
of the page. A page has G gates, Q sockets and C scratch numbers. A SOCKET is a place for a byte:
the numbers 8*s to 8*s + 7 are socket s, and number 8*s + i is bit i of the byte there. SCRATCH
NUMBERS are those from 8*Q to 8*Q + C - 1; the page uses them for itself, and writes each before it
reads it. So what they show before the page does not matter, and what they show after is of no use.

A PLAY is a page with Q + 1 BASES, which are registers and say where the page is done:
  - a number n below 8*Q stands for register base(n div 8) + (n mod 8);
  - any other number n stands for register base(Q) + n - 8*Q.
So bases 0 to Q - 1 say where the bytes of the sockets begin, and base Q where the scratch begins.
Example: the play \"ENTER 40 1664\" has Q = 1. Its number 3 is register 43, its number 10 register
1664 + 10 - 8 = 1666. The gate \"XOR 10 3 1\" of page ENTER then is: register 1666 becomes the XOR of
registers 43 and 41.

A PLAN is a list of plays. It is done one play after another, and each play does its page's gates in
order. There are three: scheduling, which makes the round keys out of the key; sealing, which is the
cipher; opening, which is the inverse cipher. A STAGE is a part of a plan: that which belongs to one
round key.

Where things lie in a lane:

  registers          what
  0 to 127           the STATE: the block before, during and after sealing and opening
  128 to 255         ROUND KEY 0, which is the key itself
  256 to 383         round key 1, and so on: round key n is 128*(n + 1) to 128*(n + 1) + 127
  1408 to 1535       round key 10, the last
  1536 to 2047       scratch; of it 1536 to 1663 are called the BUFFER, which holds sixteen bytes

In the state, in each round key and in the buffer, bit i of byte j is 8*j + i registers behind the
first. Byte j of a block is the standard's in(j): row j mod 4 and column j div 4 of its state.
Round keys 0 and 10 stand as plain bytes, round keys 1 to 9 in coordinates (section 2). The block is
plain before and after sealing and opening; between the stages it stands in coordinates.

How to open a sealed block with this text, where the key and the sealed block are known:
  1. Take 2048 registers. What they show does not matter, but zero is tidy.
  2. Write the key: register 128 + 8*j + i shows bit i of key byte j, for j = 0 to 15, i = 0 to 7.
  3. Do the plan \"scheduling\" of section 4, all of its plays in order, each with the gates of its
     page in section 3.
  4. Write the sealed block: register 8*j + i shows bit i of its byte j.
  5. Do the plan \"opening\" of section 4 in the same way.
  6. Read the block: bit i of its byte j is what register 8*j + i shows.
To seal, write the plain block in step 4 and do the plan \"sealing\" in step 5. Scheduling is done
once for a key; sealing and opening leave all round keys as they are. Or use FIPS 197 alone: the
result is the same.

";

pub(crate) const COORDINATES: &[u8] = b"2 COORDINATES
-------------

Through the rounds a byte does not stand as FIPS 197 writes it, but by eight COORDINATES, bits c0 to
c7. In them the inverse of a byte takes few gates (after \"A More Compact AES, and More\" by D. A.
Osvik and D. Canright). The coordinates are written as a byte too: bit i of it is ci.

From coordinates to the plain byte: XOR those of these eight bytes whose coordinate is 1.

  coordinate        plain byte with this coordinate alone
";

pub(crate) const TO_COORDINATES: &[u8] = b"
From a plain byte to its coordinates: XOR those of these eight bytes whose bit of the plain byte is
1. The result has coordinate ci as its bit i.

  bit   plain byte   its coordinates
";

pub(crate) const AFTER_COORDINATES: &[u8] = b"
Example: the plain byte 03 has bits 0 and 1, so its coordinates are the XOR of the first two bytes
of the second table, 99 XOR 3e = a7. Back again: a7 has the bits 0, 1, 2, 5 and 7, and the XOR of
the bytes 66, 7d, 4c, cc and 98 of the first table is 03.

Adding is the same in coordinates as in plain bytes: the coordinates of an XOR are the XOR of the
coordinates. All else that FIPS 197 does to a byte, the pages do to its coordinates: where the
standard makes the byte f of a byte, the page makes the coordinates of f of that byte's coordinates.

";

pub(crate) const PAGES: &[u8] = b"3 PAGES
-------

There are twenty-one pages. Each is given by its name, one sentence, its G, Q and C, and a line for
each gate: the gate's index, its kind, the target t and the operands a and b (all three are numbers
of the page), and at the end a CHECK, by which a damaged line is found and mended. The gates are
done in the order of their indices, from 0 on.

Checks by MASK. On most pages each gate is an XOR, an XNOR, or an AND of a number with itself (which
copies it). There every number always holds a sum, an XOR of some of the 8*Q socket bits as they
were when the page began (the inputs), perhaps complemented. The mask is a hexadecimal number of 2*Q
digits. Its bit i tells whether input i, the bit that number i showed at the beginning, is in the
sum that the target holds after this gate; \" +1\" behind it says that the sum is complemented. To
work the masks out, keep a mask and a +1 mark for each number of the page:
  - At the beginning number i below 8*Q has the mask with bit i alone, scratch numbers have mask 0;
    none has the mark.
  - XOR: the target gets the XOR of the masks of a and b, and the mark if just one of them has it.
  - XNOR: the same, but the mark if both or none of them has it.
  - AND with a = b: the target gets a's mask and mark.

Checks by COLUMN. On the other pages (INVERT, and the RCON pages) the check is the target's column:
let socket 0 at the beginning hold each of the 256 bytes 00 to ff in turn, with all other numbers of
the page at 0, and do the page's gates up to this one. The bit that the target shows for byte v is
bit v of the column, a hexadecimal number of 256 bits, written with 64 digits. To work the columns
out, keep a column for each number of the page: at the beginning number i below 8 has the column
whose bit v is bit i of v (number 0 has aaaa..aa, number 1 cccc..cc, number 2 f0f0..f0, number 7 has
32 digits f and then 32 digits 0), and all others have column 0. A gate does its kind's result to
each of the 256 bits of the columns of a and b.

How to find and mend a damaged line. Go down the page and work out each check. The first line where
it differs from the printed one is damaged, or has a damaged line before it that gave no sign.
  - Kind, target and operands can be read, the check cannot: the check worked out is the right one.
  - An operand or the kind cannot be read, the check can: try each number and kind. Right are those
    that give the check. Where two numbers hold the same at that point, either one does.
  - The target cannot be read: it is such that all later checks come out right; a page mostly writes
    its scratch numbers in order, each once.
  - The whole line is lost: a later line that reads the lost target tells what it held. With masks,
    that is the later line's check XOR the mask of its other operand. Then find operands whose masks
    give this sum. With columns, try kinds and operands until the later checks come out right.
  - The sentence above each page tells what must stand in its sockets at the end, so at the last a
    page can be written again from section 2 and FIPS 197: any gates that do the same will do.
";

pub(crate) const PLANS: &[u8] = b"
4 PLANS
-------

Each line is a play: its index in the plan, the page's name, and its Q + 1 bases, the last of which
is where the page's scratch begins. Plays are done in the order of their indices, from 0 on. Above
each group of plays stands what they do, and the rule that gives their bases, so that a damaged line
can be written again. In a rule j runs from 0 to 15, x from 0 to 3 and c from 0 to 3, in this order.
";

pub(crate) const SEALING: &[u8] = b"
PLAN sealing
The block in the state becomes its cipher under the round keys. Stage n adds round key n at its end.
After each of the stages 0 to 9 the state shows the coordinates of the state of FIPS 197 after
AddRoundKey of round n; after stage 10 it shows the sealed block as plain bytes.
";

pub(crate) const SCHEDULING: &[u8] = b"
PLAN scheduling
The key in round key 0 becomes all eleven round keys. The buffer (registers 1536 to 1663) holds the
key in coordinates. Registers 1664 to 1695 hold a word of four bytes, temp, which is the temp of
FIPS 197. Each round key has four words of four bytes: word 4*n + m is bytes 4*m to 4*m + 3 of round
key n.
";

pub(crate) const OPENING: &[u8] = b"
PLAN opening
The sealed block in the state becomes the block. Stage 0 adds round key 10, and stage n round key
10 - n. After each of the stages 0 to 9 the state shows coordinates; after stage 10 it shows the
block as plain bytes.
";

pub(crate) const COUNTS: &[u8] = b"
5 COUNTS
--------

The number of gates of each plan: the sum of G over its plays.
";

pub(crate) const EXAMPLE: &[u8] = b"
6 AN EXAMPLE
------------

Worked by playing the plans of section 4 on a bench of registers, and reading the registers after
each stage. It is the example of FIPS 197 for AES-128.

";
