// The steps of the plans, each with the rule of its bases.
use crate::cursors::Step;

// Steps that stand in two stages.
const INTO_COORDINATES: Step = Step {
    what: b"The state goes over to coordinates.\nLine j: ENTER, 8*j, 1664.\n",
    count: 16,
};

const INVERSES: Step = Step {
    what: b"ShiftRows and the inverses, from the state into the buffer.\nLine j: INVERT, 8*(5*j mod 16), 1536 + 8*j, 1664.\n",
    count: 16,
};

const ROUND_KEY_10: Step = Step {
    what: b"Round key 10 is added.\nLine j: ADD, 8*j, 1408 + 8*j, 1664.\n",
    count: 16,
};

const AFFINE_UNDONE: Step = Step {
    what: b"The affine rule is undone in the state.\nLine j: UNAFFINE, 8*j, 1664.\n",
    count: 16,
};

const INVERSES_BACK: Step = Step {
    what: b"InvShiftRows and the inverses, from the state into the buffer.\nLine j: INVERT, 8*(13*j mod 16), 1536 + 8*j, 1664.\n",
    count: 16,
};

pub(crate) const SEAL_FIRST: [Step; 2] = [
    Step {
        what: b"Round key 0 is added.\nLine j: ADD, 8*j, 128 + 8*j, 1664.\n",
        count: 16,
    },
    INTO_COORDINATES,
];

pub(crate) const SEAL_ROUND: [Step; 3] = [
    INVERSES,
    Step {
        what: b"The affine rule and MixColumns, column by column, from the buffer into the state.\nLine c: MIX, 1536 + 32*c, 1544 + 32*c, 1552 + 32*c, 1560 + 32*c,\n32*c, 8 + 32*c, 16 + 32*c, 24 + 32*c, 1664.\n",
        count: 4,
    },
    Step {
        what: b"Round key n is added, where n is the stage.\nLine j: ADD, 8*j, 128*(n + 1) + 8*j, 1664.\n",
        count: 16,
    },
];

pub(crate) const SEAL_LAST: [Step; 3] = [
    INVERSES,
    Step {
        what: b"The affine rule, and back to plain bytes, from the buffer into the state.\nLine j: FINISH, 1536 + 8*j, 8*j, 1664.\n",
        count: 16,
    },
    ROUND_KEY_10,
];

pub(crate) const SCHEDULE_START: [Step; 2] = [
    Step {
        what: b"Round key 0 is copied into the buffer.\nLine j: COPY, 128 + 8*j, 1536 + 8*j, 1728.\n",
        count: 16,
    },
    Step {
        what: b"The buffer goes over to coordinates.\nLine j: ENTER, 1536 + 8*j, 1728.\n",
        count: 16,
    },
];

pub(crate) const SCHEDULE_KEY: [Step; 7] = [
    Step {
        what: b"RotWord and the inverses, from the last word of the round key before, which begins at register\np = 128*n + 96 (for n = 1 in the buffer, p = 1632), into temp.\nLine x: INVERT, p + 8*((x + 1) mod 4), 1664 + 8*x, 1728.\n",
        count: 4,
    },
    Step {
        what: b"The affine rule in temp.\nLine x: AFFINE, 1664 + 8*x, 1728.\n",
        count: 4,
    },
    Step {
        what: b"Round constant n is added to temp.\nRCON_n, 1664, 1728.\n",
        count: 1,
    },
    Step {
        what: b"Word 4*n is the word 4 before it plus temp.\nLine x: SUM, b + 8*x, 1664 + 8*x, 128*(n + 1) + 8*x, 1728, where b = 128*n (for n = 1 b = 1536).\n",
        count: 4,
    },
    Step {
        what: b"Word 4*n + 1 is the word 4 before it plus the word before it.\nLine x: SUM, b + 32 + 8*x, 128*(n + 1) + 8*x, 128*(n + 1) + 32 + 8*x, 1728.\n",
        count: 4,
    },
    Step {
        what: b"Word 4*n + 2, in the same way.\nLine x: SUM, b + 64 + 8*x, 128*(n + 1) + 32 + 8*x, 128*(n + 1) + 64 + 8*x, 1728.\n",
        count: 4,
    },
    Step {
        what: b"Word 4*n + 3, in the same way.\nLine x: SUM, b + 96 + 8*x, 128*(n + 1) + 64 + 8*x, 128*(n + 1) + 96 + 8*x, 1728.\n",
        count: 4,
    },
];

pub(crate) const SCHEDULE_END: [Step; 1] = [Step {
    what: b"Round key 10 goes back to plain bytes.\nLine j: LEAVE, 1408 + 8*j, 1728.\n",
    count: 16,
}];

pub(crate) const OPEN_FIRST: [Step; 2] = [ROUND_KEY_10, INTO_COORDINATES];

pub(crate) const OPEN_ROUND: [Step; 4] = [
    AFFINE_UNDONE,
    INVERSES_BACK,
    Step {
        what: b"Round key 10 - n is added in the buffer, where n is the stage.\nLine j: ADD, 1536 + 8*j, 128*(11 - n) + 8*j, 1664.\n",
        count: 16,
    },
    Step {
        what: b"InvMixColumns, column by column, from the buffer into the state.\nLine c: UNMIX, 1536 + 32*c, 1544 + 32*c, 1552 + 32*c, 1560 + 32*c,\n32*c, 8 + 32*c, 16 + 32*c, 24 + 32*c, 1664.\n",
        count: 4,
    },
];

pub(crate) const OPEN_LAST: [Step; 4] = [
    AFFINE_UNDONE,
    INVERSES_BACK,
    Step {
        what: b"The buffer goes back to plain bytes.\nLine j: LEAVE, 1536 + 8*j, 1664.\n",
        count: 16,
    },
    Step {
        what: b"Round key 0 is added, from the buffer into the state.\nLine j: SUM, 1536 + 8*j, 128 + 8*j, 8*j, 1664.\n",
        count: 16,
    },
];
